// The limits of a session.
ghost use Rattle.std.specs.Prelude.{◌≡◌, ◌≤◌};

/// What a session may hold. Each limit is at least 1 and at most the standard one.
#[derive(Debug, Drop)]
pub struct Limits {
    pub tables: u32,
    pub columns: u16,
    pub constraints: u32,
    pub atoms: u16,
    pub blocks: u16,
    pub outputs: u16,
    pub rows: u32,
    pub text: u32,
    pub file: u64,
    ghost tables_in_range: { (1 ≤ tables) × (tables ≤ 1024) },
    ghost columns_in_range: { (1 ≤ columns) × (columns ≤ 64) },
    ghost constraints_in_range: { (1 ≤ constraints) × (constraints ≤ 65536) },
    ghost atoms_in_range: { (1 ≤ atoms) × (atoms ≤ 16) },
    ghost blocks_in_range: { (1 ≤ blocks) × (blocks ≤ 64) },
    ghost outputs_in_range: { (1 ≤ outputs) × (outputs ≤ 1024) },
    ghost rows_in_range: { (1 ≤ rows) × (rows ≤ 16777216) },
    ghost text_in_range: { (1 ≤ text) × (text ≤ 65535) },
    ghost file_in_range: { (1 ≤ file) × (file ≤ 67108864) },
}

impl Limits {
    /// The limits that the program runs with.
    pub fn standard() -> Limits
        ensures tables { result.tables ≡ 1024 }
        ensures columns { result.columns ≡ 64 }
        ensures constraints { result.constraints ≡ 65536 }
        ensures atoms { result.atoms ≡ 16 }
        ensures blocks { result.blocks ≡ 64 }
        ensures outputs { result.outputs ≡ 1024 }
        ensures rows { result.rows ≡ 16777216 }
        ensures text { result.text ≡ 65535 }
        ensures file { result.file ≡ 67108864 }
    {
        Limits {
            tables: 1024,
            columns: 64,
            constraints: 65536,
            atoms: 16,
            blocks: 64,
            outputs: 1024,
            rows: 16_777_216,
            text: 65_535,
            file: 67_108_864,
        }
    }
}
