// The state machine of one neighbour: 01's table and tick are in specs/, with the sheet of literal cases. Here are the
// types of an event and of what it leaves.
#![tactic(auto)]

use message::Message;
use neighbour::Neighbour;

// What happens to a neighbour. A message event holds the decoded message.
#[derive(Clone, Copy)]
pub enum Event {
    Received(Message),
    Start,
    Stop,
    Tick,
}

// What is sent: at most two messages, in this order. An Update's rows are added where the home list is.
// No pair of options: that could hold a second message without a first.
#[derive(Clone, Copy)]
pub enum Reply {
    Nothing,
    One(Message),
    Two(Message, Message),
}

// What an event leaves.
#[derive(Clone, Copy)]
pub struct After {
    pub neighbour: Neighbour,
    pub reply: Reply,
}
