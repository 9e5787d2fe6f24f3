//! The states of devices, and what the phases make of them: `board PARENT .., ASYNC .., SUPPLIER CONSUMER ..`
//! with the parent of each device, whether it is asynchronous, and active links.

use crate::asked::{Words, cut};
use crate::boards_due::{DueCall, due_of, request_word};
use crate::entry_replies::due_reply;
use crate::kinds::kind_of;
use crate::links::{link_of, linked};
use crate::parts::CaseRunner;
use crate::reply::{CaseReply, Out, ReplyWord};
use async_board::{
    Board, board_agrees, is_direct_complete, is_down_in, is_not_down, is_not_up, is_prepared,
    is_ready, is_taken,
};
use device_rows::Flags;
use phase_prepare::prepare_follows;
use phase_resume::up_follows;
use phase_suspend::down_follows;
use sleep_base::{Mem, drop_for_mem};
use sleep_model::{Link, PhaseState};
use std::alloc::Global;

/// A board, with flags of its devices that are all set, and with flags of which none is.
#[derive(Drop)]
pub struct BoardCase {
    pub board: Board,
    pub all: Flags,
    pub none: Flags,
}

/// The device that a board finds, in a phase if the question is of one.
#[derive(Clone, Copy)]
pub enum Next {
    Prepared,
    Completed,
    Down,
    WaitsDown,
    ToSchedule,
    Up,
    WaitsUp,
    WaitsBelow,
    WaitsAbove,
}

/// A call on a board, or a question.
#[derive(Clone, Copy)]
pub enum BoardCall {
    Next(Next),
    Due(DueCall),
    Request,
    Free,
    PhaseState,
    Asynchronous,
    AllDirect,
    Laws,
    Link,
    SetLink,
    Note,
}

/// The verb of each call.
pub const BOARD_CALLS: [(&str, BoardCall); 26] = [
    ("prepared", BoardCall::Next(Next::Prepared)),
    ("completed", BoardCall::Next(Next::Completed)),
    ("down", BoardCall::Next(Next::Down)),
    ("waits_down", BoardCall::Next(Next::WaitsDown)),
    ("to_schedule", BoardCall::Next(Next::ToSchedule)),
    ("up", BoardCall::Next(Next::Up)),
    ("waits_up", BoardCall::Next(Next::WaitsUp)),
    ("waits_below", BoardCall::Next(Next::WaitsBelow)),
    ("waits_above", BoardCall::Next(Next::WaitsAbove)),
    ("prepare_due", BoardCall::Due(DueCall::Prepare)),
    ("complete_due", BoardCall::Due(DueCall::Complete)),
    ("walk_down", BoardCall::Due(DueCall::WalkDown)),
    ("device_down", BoardCall::Due(DueCall::DeviceDown)),
    ("failed_walk_down", BoardCall::Due(DueCall::FailedWalkDown)),
    (
        "failed_device_down",
        BoardCall::Due(DueCall::FailedDeviceDown),
    ),
    ("walk_up", BoardCall::Due(DueCall::WalkUp)),
    ("device_up", BoardCall::Due(DueCall::DeviceUp)),
    ("request", BoardCall::Request),
    ("free", BoardCall::Free),
    ("stand", BoardCall::PhaseState),
    ("asynchronous", BoardCall::Asynchronous),
    ("all_direct", BoardCall::AllDirect),
    ("laws", BoardCall::Laws),
    ("link", BoardCall::Link),
    ("set_link", BoardCall::SetLink),
    ("note", BoardCall::Note),
];

/// The device that a board finds.
fn next_of(board: &Board, next: Next, words: Words) -> Option<u32> {
    let (phase, device) = (words.phase(0), words.number(1));
    match next {
        Next::Prepared => board.next_prepared(),
        Next::Completed => board.next_completed(),
        Next::Down => board.next_down(phase),
        Next::WaitsDown => board.waits_down(phase),
        Next::ToSchedule => board.next_to_schedule(phase),
        Next::Up => board.next_up(phase),
        Next::WaitsUp => board.waits_up(phase),
        Next::WaitsBelow => board.waits_for_subordinates(phase, device),
        Next::WaitsAbove => board.waits_above(phase, device),
    }
}

/// Proves the laws that the board and the phases agree with the model.
fn laws() -> CaseReply {
    board_agrees();
    prepare_follows();
    down_follows();
    up_follows();
    CaseReply::Nothing
}

/// Whether a device waits for none below it in a phase, and for none above.
fn free_reply(board: &Board, words: Words) -> CaseReply {
    let (phase, device) = (words.phase(0), words.number(1));
    CaseReply::Two(
        ReplyWord::Flag(board.is_free_below(phase, device)),
        ReplyWord::Flag(board.is_free_above(phase, device)),
    )
}

impl CaseRunner<BoardCall> for BoardCase {
    /// Answers a question about the board, or changes it.
    fn answer(&mut self, call: BoardCall, rest: &str, out: &mut Out) -> CaseReply {
        let words = Words::of(rest);
        let (first, second) = (words.number(0), words.number(1));
        let word = match call {
            BoardCall::Next(next) => ReplyWord::Maybe(next_of(&self.board, next, words)),
            BoardCall::Due(call) => return due_reply(due_of(self, call, words)),
            BoardCall::Request => request_word(&self.board, words),
            BoardCall::Free => return free_reply(&self.board, words),
            BoardCall::PhaseState => {
                ReplyWord::PhaseState(self.board.state(words.phase(0), second))
            }
            BoardCall::Asynchronous => ReplyWord::Flag(self.board.is_asynchronous(first)),
            BoardCall::AllDirect => ReplyWord::Flag(self.board.all_below_direct_complete(first)),
            BoardCall::Laws => return laws(),
            BoardCall::Link => ReplyWord::Flag(self.board.add_link(first, second).is_ok()),
            BoardCall::SetLink => {
                ReplyWord::Flag(self.board.set_link(first, second, words.flag(2)).is_ok())
            }
            BoardCall::Note => {
                self.board.note(kind_of(rest, out));
                return CaseReply::Nothing;
            }
        };
        CaseReply::One(word)
    }
}

/// The active links that words give.
fn links_in(alloc: Global, text: &str) -> Result<Vec<Link>, Mem> {
    let mut links = Vec::new(alloc);
    for link in text.split(';') {
        if !link.is_empty() {
            links.push(link_of(link))?;
        }
    }
    Ok(links)
}

/// Flags that words give.
fn flags_in(alloc: Global, text: &str) -> Result<Vec<bool>, Mem> {
    let mut flags = Vec::new(alloc);
    for word in text.split(' ') {
        flags.push(word == "yes")?;
    }
    Ok(flags)
}

/// The board that a text gives.
fn wired(alloc: Global, text: &str) -> Result<Board, Mem> {
    let (parents, rest) = cut(text, ',');
    let (asynchronous, list) = cut(rest, ',');
    let list = links_in(alloc, list)?;
    let Ok(flags) = flags_in(alloc, asynchronous) else {
        return Err(drop_for_mem(list));
    };
    match linked(alloc, parents, &list) {
        Ok(Some(links)) => Board::wired(alloc, links, flags),
        _ => Err(drop_for_mem(flags)),
    }
}

/// A board with its flags.
pub fn board_case(alloc: Global, text: &str) -> Result<BoardCase, Mem> {
    let all = Flags::of_vec(vec![in alloc; true; 3]?);
    let none = Flags::new(alloc, 3)?;
    let board = wired(alloc, text)?;
    Ok(BoardCase { board, all, none })
}

/// The name of each state.
pub const STATES: [(&str, PhaseState); 10] = [
    ("unprepared", PhaseState::Unprepared),
    ("prepared", PhaseState::Prepared),
    ("scheduled", PhaseState::Scheduled),
    ("suspending", PhaseState::Suspending),
    ("failed", PhaseState::Failed),
    ("direct", PhaseState::Direct),
    ("suspended", PhaseState::Suspended),
    ("rescheduled", PhaseState::Rescheduled),
    ("resuming", PhaseState::Resuming),
    ("resumed", PhaseState::Resumed),
];

impl CaseRunner<PhaseState> for Global {
    /// Says what holds of a state: that it is prepared, ready, not down, down, direct-complete, not up, or
    /// taken.
    fn answer(&mut self, state: PhaseState, _rest: &str, out: &mut Out) -> CaseReply {
        out.words(&[
            ReplyWord::Flag(is_prepared(state)),
            ReplyWord::Flag(is_ready(state)),
            ReplyWord::Flag(is_not_down(state)),
            ReplyWord::Flag(is_down_in(state)),
            ReplyWord::Flag(is_direct_complete(state)),
            ReplyWord::Flag(is_not_up(state)),
            ReplyWord::Flag(is_taken(state)),
        ]);
        CaseReply::Nothing
    }
}
