//! A step of the event word answers the word before it.
use event_word::{Bump, Events, PlainEvents, look_from};
use sleep_model::EventNow;
use std::sync::Wait;

fn word(inpr: u32, count: u32, hard: u32) -> EventNow {
    EventNow { inpr, count, hard }
}

/// What the three steps of a hard event and two looks after them answer.
fn answered<R: Wait>(rt: &R) -> [EventNow; 5] {
    let mut events = PlainEvents::new();
    let start = events.start();
    let hard = events.hard();
    let finish = events.finish();
    let look = events.look();
    [start, hard, finish, look, look_from(rt, &mut events, 3)]
}

/// Each step answers the word before it, and raises the position by one.
#[test]
fn a_step_answers_the_word_before_it(rt: HostRuntime) {
    let before = [word(0, 0, 0), word(1, 0, 0), word(1, 0, 1)];
    let last = word(0, 1, 1);
    let [start, hard, finish, look, next] = answered(&rt);
    assert!(rt; [start, hard, finish] == before && look == last && next == last);
}
