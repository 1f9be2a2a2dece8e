// What mgs_fill rewrites, as changes.
ghost use Rattle.std.specs.Prelude.{◌≡◌, ℕ, List, IfOk};
ghost use Rattle.mgs_fill.specs.Rewriting.{RewriteWithin};
ghost use Rattle.mgs_edit.specs.Reading.{ChangeWithin};
ghost use Rattle.mgs_edit.specs.Rewriting.{IsOfRewrite, changed, changed_or, finish_for, given_of, put_for};

use crate::plan::{Around, Change, Finish, Goes, Put, STAYS};
use mgs_fill::{Given, Point, Rewrite, Written};
use mgs_model::Message;

/// What mgs_fill is given of what is given here.
pub(crate) fn given_of(around: &Around) -> Given
    ensures { result ≡ given_of around.now }
{
    Given {
        place: around.place,
        mark: around.mark,
        argument: around.argument,
        fill: around.fill,
    }
}

fn put_for(from: usize, to: usize, written: Written) -> Put
    ensures { result ≡ put_for from to written }
{
    match written {
        Written::Nothing => Put::Nothing,
        Written::Space => Put::Character { put: ' ', times: 1 },
        Written::Cased(case) => Put::Cased { from, to, case },
        Written::Filled { fill, len } => Put::Filled {
            from,
            to,
            fill,
            len,
        },
    }
}

fn finish_for(point: Point) -> Finish
    ensures { result ≡ finish_for point }
{
    let point = match point {
        Point::Stays => Goes::Stays,
        Point::To(place) => Goes::To(place),
        Point::Behind => Goes::Behind,
    };
    Finish { point, ..STAYS }
}

fn changed(rewrite: Rewrite) -> Change
    ensures { result ≡ changed rewrite }
{
    Change {
        from: rewrite.from,
        to: rewrite.to,
        put: put_for(rewrite.from, rewrite.to, rewrite.written),
        finish: finish_for(rewrite.point),
    }
}

fn changed_or(answer: Result<Rewrite, Message>) -> Result<Change, Message>
    ensures { result ≡ changed_or answer }
{
    match answer {
        Ok(rewrite) => Ok(changed(rewrite)),
        Err(message) => Err(message),
    }
}

#[tactic(auto, using(crate::proofs::Rewrites::is_change, crate::proofs::Rewrites::is_within))]
/// The change that a rewriting is, which is the command's plan where the rewriting is.
pub(crate) fn planned(answer: Result<Rewrite, Message>) -> Result<Change, Message>
    ensures plan { IsOfRewrite answer result }
    ensures within { (text kill : List ℕ) → IfOk answer (RewriteWithin text) → IfOk result (ChangeWithin text kill) }
{
    changed_or(answer)
}
