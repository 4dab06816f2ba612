// The calls of a walker, each on the state that the call before it left. A state is made anew for each line: to add another one, add its fields to State, and its rows in a
// module of their own, which hands on as this one does.
use crate::tables;
use std::io::{Result, Stdout};
use test_answers::Say;
use test_output::numbered;
use test_text::{Call, part};

// A walker: how many bytes it goes over, which stand at the front of held, and its place.
#[derive(Clone, Copy)]
pub struct State {
    pub len: usize,
    pub at: usize,
}

// At the beginning of a line.
pub(crate) fn new() -> State {
    State { len: 0, at: 0 }
}

fn made(a: &[u8], at: usize, held: &mut [u8]) -> State {
    // held has room for all bytes that a call has
    let _ = splice::put(held, 0, a);
    numbered(b"at ", at);
    State { len: a.len(), at }
}

fn look(state: State, src: &[u8]) -> State {
    test_walker::look_at(src, state.at).say();
    state
}

fn step(state: State, src: &[u8]) -> State {
    let stepped = test_walker::step_at(src, state.at);
    stepped.step.say();
    numbered(b", at ", stepped.at);
    State {
        len: state.len,
        at: stepped.at,
    }
}

// Makes a call, says what it answers, and answers the state after; out is as `tables::say` has it. A row stays a test of the key, as in test_formats.
pub(crate) fn say(out: &mut Stdout, state: State, call: &Call, held: &mut [u8]) -> Result<State> {
    if call.is(b"walker.new X") {
        return Ok(made(call.a, test_walker::new_at(call.a), held));
    }
    if call.is(b"walker.made XN") {
        return Ok(made(call.a, call.w[8], held));
    }
    if call.is(b"walker.look") {
        return Ok(look(state, part(held, 0, state.len)));
    }
    if call.is(b"walker.step") {
        return Ok(step(state, part(held, 0, state.len)));
    }
    tables::say(out, call)?;
    Ok(state)
}
