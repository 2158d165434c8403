//! What panels by themselves answer, with the numbers that their operations have in the record.

ghost use Rattle.driven_node.specs.Nodes.{AreDriven};

use anyhow::Result;
use driven_node::{DrivenNode, DrivenNodes};
use face_text::{Answers, OpAnswer, OpAnswers, Reply};
use site_types::Event;
use std::alloc::Global;
use trial_records::answers_of;

/// Notes the panels at which these events ask for operations, in their order.
pub(crate) fn note_asked(asked: &mut Vec<u8>, events: &[Event]) -> Result<()> {
    for event in events {
        if let Event::Op { panel, .. } = event {
            asked.push(*panel)?;
        }
    }
    Ok(())
}

/// What all panels answered in the tick that was run last, as text. `asked` has the panel of each operation so far.
pub(crate) fn answers_so_far(alloc: Global, nodes: &DrivenNodes, asked: &[u8]) -> Result<String> {
    let mut answers = Answers {
        ops: OpAnswers::new(),
        busy: [0; 8],
        failed: false,
    };
    for own in &nodes.nodes {
        let told = own.node.answers();
        answers.failed = answers.failed || told.failed;
        for place in 0..8 {
            answers.busy[place] = answers.busy[place].saturating_add(told.busy[place]);
        }
    }
    let mut counts: [u64; 8] = [0; 8];
    let mut number: u64 = 0;
    for panel in asked {
        number = number.saturating_add(1);
        let place = (*panel as usize).saturating_sub(1).min(7);
        counts[place] = counts[place].saturating_add(1);
        if let Some(own) = nodes.nodes.get(place) {
            if let Some(reply) = reply_to(own, counts[place]) {
                if answers.ops.as_slice().len() < 64 {
                    answers.ops.push(OpAnswer { number, reply });
                }
            }
        }
    }
    answers_of(alloc, &answers)
}

// What a panel answered to its operation of this number, if it did.
fn reply_to(own: &DrivenNode, number: u64) -> Option<Reply> {
    for answer in own.node.answers().ops.as_slice() {
        if answer.number == number {
            return Some(answer.reply);
        }
    }
    None
}
