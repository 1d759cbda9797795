// Settling: any diagram that is drafted in working memory becomes the canonical one of its rule.
// Working memory has four areas of 128 strips: the rows off of the places, their rows dif, a table of rows, and images.

#![tactic(auto)]

ghost use Rattle.std.specs.Prelude.{◌≤◌, length};
ghost use Rattle.settling.specs.Draft.{Beyond};
ghost use Rattle.settling.specs.Settling.{Sound, FormedDraft, rule_of, positions, Settled};

use draft::{Draft, Form, TooMany};
use strip::Strip;

pub mod canonicalise;
pub mod draft;
pub mod trim;
pub mod work;

// The diagram that is drafted in working memory becomes the canonical one of its rule, or no diagram of at most 31
// cells has that rule.
pub fn settle<S: Strip>(work: &mut [S], d: &mut Draft<S>) -> Result<Form<S>, TooMany>
    requires room { 512 ≤ length work.old }
    requires sound { Sound S.code S.len work.old d.old }
    ensures settled { FormedDraft S.Codes.Scale.model S.code work.old d.old → Settled S.Codes.Scale.model S.code (positions d.old) (rule_of S.Codes.Scale.model S.code work.old d.old) work.new result }
    ensures beyond { Beyond S.code work.old work.new }
{
    trim::trim(work, d);
    canonicalise::canonicalise(work, d)
}
