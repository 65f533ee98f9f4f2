// What is asked of the calls as a whole, as theorems over the sheet in memory: definitions in specs/, theorems in proofs/.
#![tactic(auto)]

#[derive(Clone, Copy)]
pub struct Nothing {
    pub none: bool,
}
