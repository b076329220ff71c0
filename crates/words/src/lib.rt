// Owns the register words as fields of bits (document 01, "Register words"): the number in a field, and whether a bit is set that no field names.
#![tactic(auto)]

ghost use Rattle.std.specs.Prelude.{◌≡◌, ◌<◌, ◌^◌};
ghost use Rattle.words.specs.Words.{bits, field_of, any_set, cfg_reserved, row_reserved, ref_reserved, tim_reserved, reserved_map, reserved_all};

// Two to the power n.
pub fn power(n: u32) -> u32
    requires { n < 32 }
    ensures { result ≡ 2 ^ n }
{
    1 << n
}

// The number in `width` bits of a word, from bit `low` on.
pub fn field(word: u32, low: u32, width: u32) -> u32
    requires { (low < 32) × (width < 32) }
    ensures { result ≡ field_of word (bits low width) }
{
    word / power(low) % power(width)
}

// Is a bit of CFG set that no field names? A function for each word, as the definitions have one: fields in a list to go through would be no plainer.
fn cfg_reserved(w: u32) -> bool
    ensures { result ≡ any_set cfg_reserved w }
{
    field(w, 15, 17) != 0 || field(w, 12, 2) != 0 || field(w, 7, 2) != 0 || field(w, 3, 1) != 0
}

fn row_reserved(w: u32) -> bool
    ensures { result ≡ any_set row_reserved w }
{
    field(w, 3, 29) != 0
}

fn ref_reserved(w: u32) -> bool
    ensures { result ≡ any_set ref_reserved w }
{
    field(w, 13, 19) != 0
}

fn tim_reserved(w: u32) -> bool
    ensures { result ≡ any_set tim_reserved w }
{
    field(w, 23, 1) != 0 || field(w, 19, 1) != 0 || field(w, 7, 1) != 0 || field(w, 0, 4) != 0
}

// Number 1 for the words of the standalone map, and for all four.
#[tactic(auto, unfolding(crate::specs::Words::reserved_map))]
pub fn map_reserved(cfg: u32, row: u32) -> bool
    ensures { result ≡ reserved_map cfg row }
{
    cfg_reserved(cfg) || row_reserved(row)
}

#[tactic(auto, unfolding(crate::specs::Words::reserved_all))]
pub fn all_reserved(cfg: u32, row: u32, refr: u32, tim: u32) -> bool
    ensures { result ≡ reserved_all cfg row refr tim }
{
    map_reserved(cfg, row) || ref_reserved(refr) || tim_reserved(tim)
}
