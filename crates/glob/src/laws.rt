//! Laws about the definitions that contracts cite: about patterns and the texts that they match, and about walks.
pub use glob_walk::laws::calls::{path_matches_as_its_text, text_is_an_equal_pattern};
pub use glob_walk::laws::patterns::{
    accepted_has_no_fault, components_match_level_by_level, deep_tokens_match_as_one,
    escaped_text_matches_itself, looser_rules_keep_a_match, matching_is_decided,
    no_more_tokens_than_characters, one_character_for_each_such_token, one_list_of_tokens,
    one_unit_at_a_place, one_way_of_units, plain_pattern_matches_itself,
    plain_tokens_stand_in_the_text, reading_answers_fault, reading_answers_tokens,
    refused_has_one_fault, separator_rule_spares_names,
};
pub use glob_walk::laws::walks::{
    enough_levels_give_the_same_marks, entries_stand_in_ascending_order,
    plain_pattern_matches_level_by_level, plain_walk_gives_the_goal, plain_walk_reaches_the_goal,
    steps_give_the_listing, walk_costs_a_polynomial_of_keys, walk_finds_what_its_components_take,
};
