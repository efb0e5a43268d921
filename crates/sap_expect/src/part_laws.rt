//! Laws of the table, part by part: what follows it is spelled by the grammar, with no more levels than are left.
ghost use Rattle.std.specs.Prelude.{◌≡◌, ◌≤◌, ◌∷◌, ℕ, true, false, codes, List, []};
ghost use Rattle.sap_terms.specs.declared.fact.Fact.{Fact};
ghost use Rattle.sap_terms.specs.Signature.{Sig};
ghost use Rattle.sap_terms.specs.Tree.{Tree, level_count, trees_levels, trees_of};
ghost use Rattle.sap_formula.specs.Form.{Form};
ghost use Rattle.sap_formula_grammar.specs.FormulaGrammar.{IsIff, IsShortFormula, IsSmallForm, Reach};
ghost use Rattle.sap_grammar.specs.FactGrammar.{AreFacts, IsShortFact};
ghost use Rattle.sap_grammar.specs.TermGrammar.{IsArgs, IsTerm};
ghost use Rattle.sap_grammar.specs.Words.{Word};
ghost use Rattle.sap_grammar.specs.declared.limits.Limits.{Limits};
ghost use Rattle.sap_macro.specs.Written.{Written};
ghost use Rattle.sap_draft.specs.ProcessGrammar.{Ending, IsPar, IsSeq};
ghost use Rattle.sap_draft.specs.declared.limits.TheConstants.{FILE_LIMITS as most};
ghost use Rattle.sap_expect.specs.declared.wanted.Limit.{Limit};
ghost use Rattle.sap_expect.specs.declared.wanted.Part.TheVariants.{Equivalence, Fact as AFact, Facts, Process, Sequence, Shown, Term, Terms};
ghost use Rattle.sap_expect.specs.FileTable.{Open, Reads, part};
ghost use Rattle.sap_expect.specs.LevelExamples.{letterless, quoted_formula};
ghost use Rattle.sap_expect.specs.Letters.{AreLettered};

/// A law: where the table wants a term of at most so many levels, the words that follow it begin with such a term, under any
/// signature, and what is behind the term follows what is wanted behind it, where what ended last has its levels; so do arguments,
/// with their parenthesis.
pub fn terms_that_follow_are_spelled()
    ensures term { (g : Sig) (n m : ℕ) (l : Limit) (vs : List Open) (ws : List Word) → 1 ≤ m → Reads n ((part Term l, m) ∷ vs) ws
        → (t : Tree) × (b : List Word) × IsTerm g t ws b × (level_count t ≤ m) × Reads (level_count t) vs b }
    ensures arguments { (g : Sig) (n m : ℕ) (l : Limit) (vs : List Open) (ws : List Word) → Reads n ((part Terms l, m) ∷ vs) ws
        → (ts : List Tree) × (b : List Word) × IsArgs g ts ws b × (trees_levels (trees_of ts) ≤ m)
        × Reads (trees_levels (trees_of ts)) vs b }
{}

/// A law: so of facts, whose terms keep to a file's limits: of one, of a list in brackets, and of what a rule shows.
pub fn facts_that_follow_are_spelled()
    ensures fact { (g : Sig) (n m : ℕ) (l : Limit) (vs : List Open) (ws : List Word) → Reads n ((part AFact l, m) ∷ vs) ws
        → (f : Fact) × (k : ℕ) × (b : List Word) × IsShortFact g most true f ws b × Reads k vs b }
    ensures facts { (g : Sig) (n m : ℕ) (l : Limit) (vs : List Open) (ws : List Word) → Reads n ((part Facts l, m) ∷ vs) ws
        → (fs : List Fact) × (k : ℕ) × (b : List Word) × AreFacts g most true (codes "]") fs ws b × Reads k vs b }
    ensures shown { (g : Sig) (n m : ℕ) (l : Limit) (vs : List Open) (ws : List Word) → Reads n ((part Shown l, m) ∷ vs) ws
        → (fs : List Fact) × (k : ℕ) × (b : List Word) × AreFacts g most false (codes "]->") fs ws b × Reads k vs b }
{}

/// A law: so of processes, whose terms keep to a file's limits: of one that is no parallel without parentheses, and of any.
pub fn processes_that_follow_are_spelled()
    ensures sequence { (g : Sig) (n m : ℕ) (l : Limit) (vs : List Open) (ws : List Word) → 1 ≤ m → Reads n ((part Sequence l, m) ∷ vs) ws
        → (e : Ending) × (p : Written) × (k : ℕ) × (b : List Word) × IsSeq g most e p k ws b × (k ≤ m) × Reads k vs b }
    ensures process { (g : Sig) (n m : ℕ) (l : Limit) (vs : List Open) (ws : List Word) → 1 ≤ m → Reads n ((part Process l, m) ∷ vs) ws
        → (p : Written) × (k : ℕ) × (b : List Word) × IsPar g most p k ws b × (k ≤ m) × Reads k vs b }
{}

/// A law: so of formulas, whose terms keep to a file's limits, where each name begins with a letter, as those of tokens do.
pub fn formulas_that_follow_are_spelled()
    ensures { (g : Sig) (n m : ℕ) (l : Limit) (vs : List Open) (ws : List Word) → AreLettered ws → 1 ≤ m
        → Reads n ((part Equivalence l, m) ∷ vs) ws → (e : Reach) × (f : Form) × (k : ℕ) × (b : List Word)
        × IsIff g e f k ws b × IsSmallForm most f × (k ≤ m) × Reads k vs b }
{}

/// A law: what it is for that names begin with letters: by the table words may be a formula's, with its quotation mark, and the grammar
/// has none that begins so, where a name that begins with no letter stands before parentheses.
pub fn names_without_letters()
    ensures follows { Reads 0 quoted_formula letterless }
    ensures spelled_not { (g : Sig) (m : Limits) (f : Form) (b : List Word) → IsShortFormula g m f letterless b → ⊥ }
{}
