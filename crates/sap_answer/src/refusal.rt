//! Why a file, or a run, has no text.
ghost use Rattle.std.specs.Prelude.{◌≡◌, ℕ, List, Ok};
ghost use Rattle.sap_answer.specs.declared.refusal.Refusal.TheVariants as refusals;

use sap_terms::Mem;
use sap_text::Text;

/// Why a file, or a run, has no text.
#[derive(Drop)]
pub enum Refusal {
    /// Want of memory.
    Mem,
    /// It is refused; the line that says why, with its line feed.
    Told(Text),
}

impl From<Mem> for Refusal {
    ghost use Rattle.std.specs.Prelude.{◌≡◌};
    ghost use Rattle.sap_answer.specs.declared.refusal.Refusal.TheVariants.{Mem as OutOfMemory};

    ghost from_gives = { λ _ e. e ≡ OutOfMemory };

    fn from(_e: Mem) -> Refusal {
        Refusal::Mem
    }
}

/// Refuses by this line, or for want of memory where there is none.
pub fn told(line: Result<Text, Mem>) -> Refusal
    ensures only { (text : List ℕ) → result ≡ refusals.Told text → line ≡ Ok text }
    ensures line { (text : List ℕ) → line ≡ Ok text → result ≡ refusals.Told text }
{
    match line {
        Ok(text) => Refusal::Told(text),
        Err(_) => Refusal::Mem,
    }
}
