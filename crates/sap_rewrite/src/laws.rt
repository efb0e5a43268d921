//! Laws of the equational theory, each as the contract of a function that does nothing.
ghost use Rattle.sap_rewrite.specs.Around.{FittingGivesMessages, MatchingAroundIsModulo};
ghost use Rattle.sap_rewrite.specs.Bound.{AgreeingSubstitutes, BindingsGiveChoices, ExtensionsJoin, NamedOnceStay};
ghost use Rattle.sap_rewrite.specs.Laws.{EachHasForm, EqualityIsKept, FormIsOne, FormsAreMessages, FormsDecide, NormalTermsDecide, PatternsStay, SymbolsReduceOnce};
ghost use Rattle.sap_rewrite.specs.Pattern.{MatchingIsModulo};

use sap_terms::destructors_head_left_sides;

/// Every term has a normal form under every signature's equations.
pub fn each_term_has_a_normal_form()
    ensures { EachHasForm }
{}

/// No term has two normal forms.
pub fn normal_forms_are_unique()
    ensures { FormIsOne }
{}

/// Normal forms decide: the theory makes two terms equal if and only if they share a normal form.
pub fn normal_forms_decide()
    ensures { FormsDecide }
{}

/// Two normal terms are theory-equal exactly where they are the same term.
pub fn normal_terms_decide()
    ensures { NormalTermsDecide }
{}

/// Theory-equality is an equivalence. Symbols on theory-equal terms are theory-equal, instances of theory-equal terms are,
/// and instances of one term under theory-equal substitutions are.
pub fn equality_is_kept()
    ensures { EqualityIsKept }
{}

/// The equations are used at most once where a symbol stands on normal terms, and what they leave is the normal form.
pub fn symbols_reduce_once()
    ensures { SymbolsReduceOnce }
{}

/// A term without destructors is a pattern, also once some of its variables stand for messages.
pub fn patterns_stay()
    ensures { PatternsStay }
{
    destructors_head_left_sides();
}

/// Under a normal substitution, the instance of a pattern is theory-equal to a normal term exactly where it is that
/// term: so matching trees is matching modulo the equations.
pub fn matching_is_modulo()
    ensures { MatchingIsModulo }
{}

/// Under a normal substitution, the instance of a pattern is theory-equal to a normal term exactly where it fits around
/// the destructors and what stands under each of these is theory-equal to it.
pub fn matching_around_is_modulo()
    ensures { MatchingAroundIsModulo }
{}

/// What a substitution that fits around the destructors gives a variable outside them is a message, where the term is one
/// and the variable's sort allows it.
pub fn fitting_gives_messages()
    ensures { FittingGivesMessages }
{}

/// Bindings extend themselves by no variables, extensions one after another are one by all the variables, and what extends
/// bindings by some variables binds no others.
pub fn extensions_join()
    ensures { ExtensionsJoin }
{}

/// First occurrences of variables are named once, and where bindings name each variable once, so do those that extend
/// them, and they agree with the substitution that they make.
pub fn variables_named_once_stay_so()
    ensures { NamedOnceStay }
{}

/// Some substitution by messages agrees with bindings to messages that name each variable once.
pub fn bindings_give_choices()
    ensures { BindingsGiveChoices }
{}

/// Bindings, and each substitution that agrees with them, turn a term of bound variables into one term, if no name has two
/// sorts.
pub fn agreeing_choices_substitute()
    ensures { AgreeingSubstitutes }
{}

/// The normal form of a ground term over a signature is a message, if the signature holds its builtins' symbols.
pub fn forms_are_messages()
    ensures { FormsAreMessages }
{}
