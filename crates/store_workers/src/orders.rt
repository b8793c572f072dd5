//! The replies of workers, brought into the order of the lines.

ghost use Rattle.std.specs.Prelude.{◌≡◌, ℕ, ◌<◌, ◌≤◌, [], ◌∷◌, length, vec_capacity};
ghost use Rattle.worker_lines.specs.Lines.{lines_of, AreOwners};
ghost use Rattle.store_workers.specs.Crews.{AreNumbered};
ghost use Rattle.store_workers.specs.Orders.{replies_of, own_at};

use request_text::Reply;
use script_parts::ScriptParts;
use std::snapshot::Snapshot;

// The list that is there alone.
fn alone(lists: Vec<Vec<Reply>>) -> Vec<Reply>
    requires { length lists.items ≡ 1 }
    ensures { lists.items ≡ result ∷ [] }
{
    let mut lists = lists;
    lists.pop().unwrap()
}

/// The replies to the lines of a script of so many, in their order, from those that each of so many workers gave to its own
/// lines. Which worker each line was for is noted; what the script was is for clauses alone. There is room for the replies.
/// Time: linear; constant where there is one worker, whose replies are in order.
pub(crate) fn in_order(
    script: Snapshot<ScriptParts>,
    lines: usize,
    owners: &[u32],
    count: u32,
    own: Vec<Vec<Reply>>,
    replies: Vec<Reply>,
) -> Vec<Reply>
    requires some { 0 < count }
    requires lines { lines ≡ length script.value }
    requires owned { AreOwners count owners.now 0 script.value }
    requires whole { AreNumbered (λ w rs. length rs.items ≡ length (lines_of w count script.value)) 0 own.items }
    requires each { length own.items ≡ count }
    requires none { replies.items ≡ [] }
    requires room { length script.value ≤ vec_capacity replies }
    ensures len { length result.items ≡ length script.value }
    ensures own { (w : ℕ) → w < count → replies_of w count script.value result.items ≡ own_at own.items w }
{
    let _script = script;
    if count == 1 {
        return alone(own);
    }
    let mut own = own;
    let mut replies = replies;
    let mut left = lines;
    while left > 0 {
        left -= 1;
        let worker = owners[left] as usize;
        replies.push_reserved(own[worker].pop().unwrap());
    }
    replies.reverse();
    replies
}
