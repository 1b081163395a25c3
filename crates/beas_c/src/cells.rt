// What a cell is, by its type.
ghost use Rattle.std.specs.Prelude.{◌≡◌, option_and_then, option_map};
ghost use Rattle.beas_library.specs.Shown.{shown};
ghost use Rattle.beas_library.specs.Told.{count_in, integer_in, sum_in, text_in};
ghost use Rattle.beas_c.specs.Telling.{type_of};

use beas_library::Shown;

/// The number of its type.
pub fn type_of(cell: Option<Shown<'_>>) -> Option<i32>
    ensures { result ≡ option_map type_of (option_map shown cell.entry) }
{
    match cell {
        Some(Shown::Integer(_)) => Some(1),
        Some(Shown::Text(_)) => Some(2),
        Some(Shown::Count(_)) => Some(3),
        Some(Shown::Sum(_)) => Some(4),
        None => None,
    }
}

/// The integer.
pub fn integer_in(cell: Option<Shown<'_>>) -> Option<i64>
    ensures { result ≡ option_and_then integer_in (option_map shown cell.entry) }
{
    match cell {
        Some(Shown::Integer(number)) => Some(number),
        _ => None,
    }
}

/// The text.
pub fn text_in(cell: Option<Shown<'_>>) -> Option<&str>
    ensures { option_map (λ text. text.now) result ≡ option_and_then text_in (option_map shown cell.entry) }
{
    match cell {
        Some(Shown::Text(text)) => Some(text),
        _ => None,
    }
}

/// The count.
pub fn count_in(cell: Option<Shown<'_>>) -> Option<u64>
    ensures { result ≡ option_and_then count_in (option_map shown cell.entry) }
{
    match cell {
        Some(Shown::Count(count)) => Some(count),
        _ => None,
    }
}

/// The sum.
pub fn sum_in(cell: Option<Shown<'_>>) -> Option<i128>
    ensures { result ≡ option_and_then sum_in (option_map shown cell.entry) }
{
    match cell {
        Some(Shown::Sum(sum)) => Some(sum),
        _ => None,
    }
}
