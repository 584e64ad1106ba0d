// Words that are numbers.
ghost use Rattle.std.specs.Prelude.{◌≡◌, ℕ, List, Option, Result};
ghost use Rattle.std.specs.Int.{w32, w64};
ghost use Rattle.std.specs.Result.{result_ok};
ghost use Rattle.std.specs.declared.num.ParseIntError.{ParseIntError};
ghost use Rattle.script.specs.Answers.{texts, Says};
ghost use Rattle.script.specs.Numbers.{unsigned_read, signed_read};
ghost use Rattle.script.specs.Words.{unsigned, signed, each};

use crate::fault::LineFault;
use std::alloc::Global;
use std::num::ParseIntError;
use std::str::FromStr;

// A kind of number that words are parsed as, with the number that each word writes, where it writes one that fits.
pub(crate) trait Numeral: FromStr<Err = ParseIntError> {
    ghost written: { List ℕ → Option Self };

    ghost parsed: { (word : List ℕ) (r : Result Self ParseIntError) → Self.from_str_gives word r → result_ok r ≡ written word };
}

impl Numeral for u16 {
    ghost written = { unsigned 16 };

    ghost parsed = { λ word r gives. unsigned_read 16 word r gives.0 };
}

impl Numeral for u32 {
    ghost written = { unsigned 32 };

    ghost parsed = { λ word r gives. unsigned_read 32 word r gives.0 };
}

impl Numeral for usize {
    ghost written = { unsigned 64 };

    ghost parsed = { λ word r gives. unsigned_read 64 word r gives.0 };
}

impl Numeral for i32 {
    ghost written = { signed 31 };

    ghost parsed = { λ word r gives. signed_read w32 word r gives.0 };
}

impl Numeral for i64 {
    ghost written = { signed 63 };

    ghost parsed = { λ word r gives. signed_read w64 word r gives.0 };
}

// The number that a word writes.
pub(crate) fn number<T: Numeral>(word: &str) -> Result<T, LineFault>
    ensures { Says (λ x. x) result (T.written word.now) }
{
    word.parse().ok().ok_or(LineFault::NotACall)
}

// The numbers that some words write, one each.
pub(crate) fn numbers<T: Numeral + Drop>(heap: Global, words: &[&str]) -> Result<Vec<T>, LineFault>
    ensures { Says (λ v. v.items) result (each T.written (texts words.now)) }
{
    words.iter().map(|word| number(word)).try_collect(heap)
}
