// The numbers that options are given.
ghost use Rattle.std.specs.Char.{is_ascii_digit};
ghost use Rattle.std.specs.List.{list_all};
ghost use Rattle.std.specs.Prelude.{◌≡◌, ◌-◌, ◌^◌};
ghost use Rattle.beas_core.specs.Spelling.{number_within};

/// The value of decimal digits, where a `u64` has it. A sign is no digit.
pub fn budget_of(text: &str) -> Option<u64>
    ensures { result ≡ number_within 0 (2 ^ 64 - 1) text.now }
{
    if !all_digits(text.as_bytes()) {
        return None;
    }
    text.parse::<u64>().ok()
}

/// The value of decimal digits, where a `u32` has it. A sign is no digit.
pub fn seed_of(text: &str) -> Option<u32>
    ensures { result ≡ number_within 0 (2 ^ 32 - 1) text.now }
{
    if !all_digits(text.as_bytes()) {
        return None;
    }
    text.parse::<u32>().ok()
}

fn all_digits(text: &[u8]) -> bool
    ensures { result ≡ list_all is_ascii_digit text.now }
{
    text.iter().all(|byte| byte.is_ascii_digit())
}
