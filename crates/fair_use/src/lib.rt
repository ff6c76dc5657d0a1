//! Rules by which no client takes what all share. Each is a decision on values: who asks, and what is held, waits or is free.
//!
//! Contracts name the decision for every case, by the definitions in specs/.
#![tactic(auto)]

mod descriptors;
mod keeping;
mod laws;
mod leaving;
mod race;
mod remembered;
mod room;
mod speed;
mod turns;
mod unanswered;
mod unjoined;
mod waiting_line;

pub use descriptors::{
    ADMINISTRATION_FILES, Division, FEW_FILES, FewFiles, FileRoom, OWN_FILES, SERVER_FILES,
    THREAD_FILES, division_of, is_told, may_be_one_more, room_for,
};
pub use keeping::{GivesWay, MOST_IDLE, MOST_TO_A_SERVER, gives_way};
pub use laws::{first_law, free_law, none_law, passing_law};
pub use leaving::{ends_unwanted, is_alone_too_long};
pub use race::{Move, Race};
pub use remembered::{Known, Spans, Use, Waited, patience};
pub use room::{EnterFault, Holder, Room, Taken};
pub use speed::{WINDOW_SECONDS, is_too_slow};
pub use turns::{forward, in_turn};
pub use unanswered::{Upload, may_have_changed};
pub use unjoined::{MOST_UNJOINED, SharedEnd, is_recent, is_remembered};
pub use waiting_line::{Crew, Standing, may_one_more, next_turn, take_turn};
