// The limits that a program asks for.
ghost use Rattle.std.specs.Prelude.{◌≡◌, ◌≤◌, ◌<◌, IfNone, IfSome, MatchOption};
ghost use Rattle.beas_c.specs.Limits.{AreAsked, IsPastSome, chosen};

use beas_core::Limits;

/// The limits that a program asks for. One that is 0 stands for the greatest.
#[repr(C)]
pub struct AskedLimits {
    pub tables: u64,
    pub columns: u64,
    pub constraints: u64,
    pub atoms: u64,
    pub blocks: u64,
    pub outputs: u64,
    pub rows: u64,
    pub text: u64,
    pub file: u64,
}

/// The limit that is asked for, unless it is past the greatest.
fn chosen(asked: u64, most: u64) -> Option<u64>
    requires { 1 ≤ most }
    ensures chosen { result ≡ chosen asked most }
    ensures within { IfSome result (λ limit. (1 ≤ limit) × (limit ≤ most)) }
    ensures past { IfNone result (most < asked) }
{
    if asked == 0 {
        Some(most)
    } else if asked <= most {
        Some(asked)
    } else {
        None
    }
}

/// The limits that are asked for, unless one is past the greatest.
pub fn limits_of(asked: &AskedLimits) -> Option<Limits>
    ensures { MatchOption result (IsPastSome asked.now) (AreAsked asked.now) }
{
    Some(Limits {
        tables: chosen(asked.tables, 1024)? as u32,
        columns: chosen(asked.columns, 64)? as u16,
        constraints: chosen(asked.constraints, 65_536)? as u32,
        atoms: chosen(asked.atoms, 16)? as u16,
        blocks: chosen(asked.blocks, 64)? as u16,
        outputs: chosen(asked.outputs, 1024)? as u16,
        rows: chosen(asked.rows, 16_777_216)? as u32,
        text: chosen(asked.text, 65_535)? as u32,
        file: chosen(asked.file, 67_108_864)?,
    })
}
