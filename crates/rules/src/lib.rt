// The mining rules of 01 as definitions (specs/), and what follows from them alone (proofs/). No code: the miner is proved against these.
#![tactic(auto)]

// How much is mined (02, 3/12): with all ten steps, or without the additional inclusions and exclusions of step 6.
#[derive(Clone, Copy)]
pub enum Profile {
    Full,
    Light,
}
