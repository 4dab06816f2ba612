// A walker for callers that keep its place as a plain number between the calls: each call makes a walker of src at a place, and calls it once.
// So a program's state needs no slice in it.
#![tactic(auto)]

ghost use Rattle.std.specs.Prelude.{◌≡◌};
ghost use Rattle.walk.specs.Rules.{step_at, after_of};
ghost use Rattle.walk.specs.Told.{told_step};

use refusal::Refusal;
use walk::Step;
use walker::Walker;

// The place of a new walker of src.
pub fn new_at(src: &[u8]) -> usize
    ensures { result ≡ 0 }
{
    Walker::new(src).at
}

// What a walker of src that stands at a place sees. 14, then 15.
pub fn look_at(src: &[u8], at: usize) -> Result<Step, Refusal>
    ensures { told_step result ≡ step_at src.now at }
{
    Walker { src, at }.look()
}

// What a walker's step answers, and where the step leaves it.
#[derive(Clone, Copy)]
pub struct Stepped {
    pub step: Result<Step, Refusal>,
    pub at: usize,
}

// The step of a walker of src that stands at a place. 14, then 15.
pub fn step_at(src: &[u8], at: usize) -> Stepped
    ensures { (told_step result.step ≡ step_at src.now at) × (result.at ≡ after_of (step_at src.now at) at) }
{
    let mut w = Walker { src, at };
    let step = w.step();
    Stepped { step, at: w.at }
}
