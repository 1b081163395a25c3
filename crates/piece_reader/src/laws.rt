// Laws of readings.
ghost use Rattle.std.specs.Prelude.{◌≡◌, List};
ghost use Rattle.sql_tokens.specs.declared.token.Token.{Token};
ghost use Rattle.piece_reader.specs.Sayings.{IsReadAs, Reading, reading_of};

/// The tokens of a piece have a reading, and no other: what they say, or why they say nothing.
pub fn law_one_saying()
    ensures some { (tokens : List Token) → IsReadAs tokens (reading_of tokens) }
    ensures one { (tokens : List Token) (reading : Reading) → IsReadAs tokens reading → reading_of tokens ≡ reading }
{}
