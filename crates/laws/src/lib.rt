// What follows from the rules: the laws of `rules`, for every sheet and every key.
#![tactic(auto)]

#[derive(Clone, Copy)]
pub struct Nothing {
    pub none: bool,
}
