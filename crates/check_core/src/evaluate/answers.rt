//! Whether an expression is accepted, from its nodes and what was found for its terms.
//! Called by `evaluate` of `evaluator`; `&&` and `||` may be asked in any way, both answers are off the list.
ghost use Rattle.std.specs.Prelude.{◌≡◌, ◌+◌, ◌<◌, ◌≤◌, [], false, length, reverse, vec_len, vec_capacity};
ghost use Rattle.spdx_core.specs.certificates.Certificates.{has_hit as has_hit_at};
ghost use Rattle.spdx_core.specs.certificates.Stack.{first_of, behind_first};
ghost use Rattle.check_core.specs.evaluate.Answers.{answers_after, answers_over};

use crate::evaluate::room::put;
use spdx_core::ExprNode;
use spdx_core::certificates::Hit;

/// Takes the last answer off; where there is none it is no.
fn take_off(answers: &mut Vec<bool>) -> bool
    ensures answer { result ≡ first_of false (reverse answers.old.items) }
    ensures rest { reverse answers.new.items ≡ behind_first (reverse answers.old.items) }
    ensures len { vec_len answers.new ≤ vec_len answers.old }
    ensures room { vec_capacity answers.new ≡ vec_capacity answers.old }
{
    answers.pop().unwrap_or(false)
}

fn has_hit(kept: &[Option<Hit>], place: usize) -> bool
    ensures { result ≡ has_hit_at kept.now place }
{
    match kept.get(place) {
        Some(hit) => hit.is_some(),
        None => false,
    }
}

/// An operator joins the last two answers.
fn step(answers: &mut Vec<bool>, node: ExprNode, kept: &[Option<Hit>])
    requires { vec_len answers.old < vec_capacity answers.old }
    ensures answers { reverse answers.new.items
        ≡ answers_after (has_hit_at kept.now) (reverse answers.old.items) node }
    ensures len { vec_len answers.new ≤ vec_len answers.old + 1 }
    ensures room { vec_capacity answers.new ≡ vec_capacity answers.old }
{
    match node {
        ExprNode::Term(place) => put(answers, has_hit(kept, place)),
        ExprNode::And => {
            let right = take_off(answers);
            let left = take_off(answers);
            put(answers, left && right)
        }
        ExprNode::Or => {
            let right = take_off(answers);
            let left = take_off(answers);
            put(answers, left || right)
        }
    }
}

/// The answer of the last tree of some nodes. What is in `answers` goes; there has to be room for one
/// answer a node.
pub fn is_accepted(answers: &mut Vec<bool>, nodes: &[ExprNode], kept: &[Option<Hit>]) -> bool
    requires { length nodes.now ≤ vec_capacity answers.old }
    ensures answer { result ≡ first_of false (answers_over (has_hit_at kept.now) [] nodes.now) }
    ensures room { vec_capacity answers.new ≡ vec_capacity answers.old }
{
    answers.clear();
    'nodes: for node in nodes {
        step(answers, *node, kept);
    }
    take_off(answers)
}
