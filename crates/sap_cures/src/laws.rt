//! Laws of what is told, as contracts of functions that do nothing: examples by hand, of each row one for which it counts, and one that
//! looks alike and for which it doesn't.
ghost use Rattle.std.specs.Prelude.{◌≡◌, true};
ghost use Rattle.std.specs.List.{list_all};
ghost use Rattle.sap_cures.specs.Examples.{is_byte_told, is_word_told};
ghost use Rattle.sap_cures.specs.ItemExamples.{builtins, functions, heads, items_left_out, items_with_names, lets, private_functions, reserved_words};
ghost use Rattle.sap_cures.specs.FormulaExamples.{arrows, inequalities, locations, orders, quantifiers, small_facts};
ghost use Rattle.sap_cures.specs.ProcessExamples.{closed_parentheses, closed_processes, closing_marks, conditions, ends, events, joined_actions, joined_conditions, lookups, open_parentheses, terms};
ghost use Rattle.sap_cures.specs.ByteExamples.{braces_and_choices, operators, other_signs, signs_of_formulas};

/// A law: what is told at words of items, by examples.
pub fn item_cures_by_hand()
    ensures of_reserved_words { list_all is_word_told reserved_words ≡ true }
    ensures of_heads { list_all is_word_told heads ≡ true }
    ensures of_builtins { list_all is_word_told builtins ≡ true }
    ensures of_functions { list_all is_word_told functions ≡ true }
    ensures of_private_functions { list_all is_word_told private_functions ≡ true }
    ensures of_lets { list_all is_word_told lets ≡ true }
    ensures of_items_left_out { list_all is_word_told items_left_out ≡ true }
    ensures of_items_with_names { list_all is_word_told items_with_names ≡ true }
{}

/// A law: what is told at words of formulas, by examples.
pub fn formula_cures_by_hand()
    ensures of_quantifiers { list_all is_word_told quantifiers ≡ true }
    ensures of_inequalities { list_all is_word_told inequalities ≡ true }
    ensures of_arrows { list_all is_word_told arrows ≡ true }
    ensures of_orders { list_all is_word_told orders ≡ true }
    ensures of_locations { list_all is_word_told locations ≡ true }
    ensures of_small_facts { list_all is_word_told small_facts ≡ true }
{}

/// A law: what is told at words of processes and terms, by examples.
pub fn process_cures_by_hand()
    ensures of_lookups { list_all is_word_told lookups ≡ true }
    ensures of_conditions { list_all is_word_told conditions ≡ true }
    ensures of_joined_conditions { list_all is_word_told joined_conditions ≡ true }
    ensures of_terms { list_all is_word_told terms ≡ true }
    ensures of_events { list_all is_word_told events ≡ true }
    ensures of_open_parentheses { list_all is_word_told open_parentheses ≡ true }
    ensures of_closed_processes { list_all is_word_told closed_processes ≡ true }
    ensures of_closed_parentheses { list_all is_word_told closed_parentheses ≡ true }
    ensures of_closing_marks { list_all is_word_told closing_marks ≡ true }
    ensures of_ends { list_all is_word_told ends ≡ true }
    ensures of_joined_actions { list_all is_word_told joined_actions ≡ true }
{}

/// A law: what is told at bytes that begin no token, by examples.
pub fn byte_cures_by_hand()
    ensures of_braces_and_choices { list_all is_byte_told braces_and_choices ≡ true }
    ensures of_operators { list_all is_byte_told operators ≡ true }
    ensures of_signs_of_formulas { list_all is_byte_told signs_of_formulas ≡ true }
    ensures of_other_signs { list_all is_byte_told other_signs ≡ true }
{}
