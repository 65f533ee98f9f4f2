// What the items of a list put in force.
ghost use Rattle.std.specs.Prelude.{◌≡◌};
ghost use Rattle.layout.specs.Word.{what_of};
ghost use Rattle.layout.specs.Force.{mark_on};

use crate::word::Content;
use attrs::Attrs;

// What is in force behind a live item.
#[tactic(auto, unfolding(crate::specs::Force::mark_on))]
pub fn passed(force: Attrs, content: Content) -> Attrs
    ensures { result ≡ mark_on force (what_of content) }
{
    match content {
        Content::Text { .. } | Content::Embed(_) => force,
        Content::Mark { key, value } => force
            .update_current_attributes(key, value)
            .unwrap_or(force),
    }
}
