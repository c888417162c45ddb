// Lists, which rows, bytes and members are in the logic: definitions and laws alone, beside those of the kit.
#![tactic(auto)]
