// Bytes as a case spells them.
use beas_core::NoMemory;
use std::alloc::Global;

/// What the next byte belongs to.
#[derive(Clone, Copy)]
enum State {
    Plain,
    Backslash,
    /// The number of a byte, of which so many digits stand already.
    Hex(u8, u8),
    /// How many times a byte is to be repeated.
    Count(u32),
    Repeated(u32),
}

fn hex_digit(byte: u8) -> u8 {
    match byte {
        b'0'..=b'9' => byte - b'0',
        b'a'..=b'f' => byte - b'a' + 10,
        b'A'..=b'F' => byte - b'A' + 10,
        _ => 0,
    }
}

fn decimal_digit(byte: u8) -> u32 {
    if byte.is_ascii_digit() {
        u32::from(byte - b'0')
    } else {
        0
    }
}

fn after_backslash(bytes: &mut Vec<u8>, byte: u8) -> Result<State, NoMemory> {
    match byte {
        b'x' => return Ok(State::Hex(0, 0)),
        b'{' => return Ok(State::Count(0)),
        b'n' => bytes.push(b'\n')?,
        b'r' => bytes.push(b'\r')?,
        _ => bytes.push(byte)?,
    }
    Ok(State::Plain)
}

fn repeat(bytes: &mut Vec<u8>, byte: u8, count: u32) -> Result<(), NoMemory> {
    for _ in 0..count {
        bytes.push(byte)?;
    }
    Ok(())
}

/// Takes one byte of the spelling.
fn take(bytes: &mut Vec<u8>, state: State, byte: u8) -> Result<State, NoMemory> {
    match state {
        State::Backslash => after_backslash(bytes, byte),
        State::Hex(high, 0) => Ok(State::Hex(high | hex_digit(byte), 1)),
        State::Hex(high, _) => {
            bytes.push(high.wrapping_mul(16).wrapping_add(hex_digit(byte)))?;
            Ok(State::Plain)
        }
        State::Count(count) => match byte {
            b'}' => Ok(State::Repeated(count)),
            _ => Ok(State::Count(count.saturating_mul(10).saturating_add(decimal_digit(byte)))),
        },
        State::Repeated(count) => {
            repeat(bytes, byte, count)?;
            Ok(State::Plain)
        }
        State::Plain => match byte {
            b'\\' => Ok(State::Backslash),
            _ => {
                bytes.push(byte)?;
                Ok(State::Plain)
            }
        },
    }
}

/// The bytes that a case spells.
pub fn bytes_of(alloc: Global, spelled: &[u8]) -> Result<Vec<u8>, NoMemory> {
    let mut bytes = Vec::new(alloc);
    let mut state = State::Plain;
    for byte in spelled {
        state = take(&mut bytes, state, *byte)?;
    }
    Ok(bytes)
}
