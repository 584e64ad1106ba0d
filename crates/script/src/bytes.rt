// Bytes as hexadecimal digits.
ghost use Rattle.std.specs.Prelude.{◌≡◌, false, Err};
ghost use Rattle.std.specs.List.{list_all};
ghost use Rattle.std.specs.Char.{is_ascii_hexdigit};
ghost use Rattle.script.specs.Answers.{Says};
ghost use Rattle.script.specs.Bytes.{bytes_of};

use crate::fault::LineFault;
use std::alloc::Global;

// Whether a word has no other characters than hexadecimal digits.
fn is_all_digits(word: &str) -> bool
    ensures { result ≡ list_all is_ascii_hexdigit word.now }
{
    word.bytes().all(|code| code.is_ascii_hexdigit())
}

// A byte for each two digits, the high one first, and one byte at least. A word with another character is no call, however little memory there is.
#[tactic(auto, using(crate::proofs::Digits::says))]
pub(crate) fn bytes_of(heap: Global, word: &str) -> Result<Vec<u8>, LineFault>
    ensures value { Says (λ v. v.items) result (bytes_of word.now) }
    ensures others { list_all is_ascii_hexdigit word.now ≡ false → result ≡ Err LineFault.NotACall }
{
    if word.is_empty() || !is_all_digits(word) {
        return Err(LineFault::NotACall);
    }
    let bytes = hex::decode(heap, word)?;
    Ok(bytes)
}
