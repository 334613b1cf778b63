//! Laws of files, as contracts: what is written by the grammar of trees is read as its value, and
//! nothing else is read.

ghost use Rattle.std.specs.Prelude.{◌≡◌, ℕ, List, Ok, true};
ghost use Rattle.std.specs.Str.{all_scalars, encode_utf8_all};
ghost use Rattle.edt_base.specs.YamlData.{Value};
ghost use Rattle.yaml_profile.specs.Reading.{reading};
ghost use Rattle.yaml_profile.specs.Written.{File, IsFile, IsSpelled, spell_file, file_value};

/// The bytes of a file that is a tree with its layout are read as the tree's value.
pub fn written_files_are_read()
    ensures { (f : File) → IsFile f → all_scalars (spell_file f) ≡ true
        → reading (encode_utf8_all (spell_file f)) ≡ Ok (file_value f) }
{}

/// What is read spells the file: the bytes of a file that has a value are those of a tree with its
/// layout, of that value.
pub fn read_files_are_written()
    ensures { (bytes : List ℕ) (v : Value) → reading bytes ≡ Ok v → IsSpelled bytes v }
{}
