// How an event is printed.
ghost use Rattle.std.specs.Prelude.{◌≡◌, Some};
ghost use Rattle.messages.specs.Text.{kind_text, yes_no_text, event_text};

use crate::event::{ActionKind, Event};
use std::fmt;

impl fmt::Display for ActionKind {
    ghost output = { λ kind. Some (kind_text kind) };

    fn fmt<W: fmt::Write>(&self, f: &mut fmt::Formatter<W>) -> fmt::Result {
        f.write_str(match self {
            ActionKind::Buy => "buy",
            ActionKind::Sell => "sell",
        })
    }
}

impl fmt::Display for Event {
    ghost output = { λ event. Some (event_text event) };

    fn fmt<W: fmt::Write>(&self, f: &mut fmt::Formatter<W>) -> fmt::Result {
        match self {
            Event::Figures {
                user,
                input,
                output,
                nomination,
            } => write!(
                f,
                "figures user {user} input {input} output {output} nomination {nomination}"
            ),
            Event::Trade {
                seller,
                buyer,
                quantity,
            } => write!(f, "trade seller {seller} buyer {buyer} quantity {quantity}"),
            Event::Action {
                user,
                kind,
                locational,
                quantity,
                price,
            } => {
                let locational = if *locational { "yes" } else { "no" };
                write!(
                    f,
                    "action user {user} kind {kind} locational {locational} quantity {quantity} price {price}"
                )
            }
            Event::Close => write!(f, "close"),
            Event::Reconcile {
                user,
                day,
                quantity,
            } => write!(f, "reconcile user {user} day {day} quantity {quantity}"),
            Event::Opening {
                users,
                default_price,
                averages,
            } => {
                let [a1, a2, a3, a4, a5, a6, a7] = averages;
                write!(
                    f,
                    "opening users {users} default {default_price} average1 {a1} average2 {a2} average3 {a3} average4 {a4} average5 {a5} average6 {a6} average7 {a7}"
                )
            }
        }
    }
}
