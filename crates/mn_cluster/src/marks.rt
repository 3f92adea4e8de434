//! The marks of a script's clients.
ghost use Rattle.std.specs.Prelude.{◌≡◌, ◌<◌, count_by, length};
ghost use Rattle.mn_callers.specs.Plays.{caller_at};
ghost use Rattle.mn_cluster.specs.Marks.{has_mark, is_marked};
ghost use Rattle.mn_script.specs.declared.elements.Mark.TheVariants.{Plain};

use mn_script::{Mark, Script, ScriptClient};

/// Whether the client has the mark.
fn has_mark(client: &ScriptClient, mark: Mark) -> bool
    ensures { result ≡ has_mark mark client.now.mark }
{
    client.mark == mark
}

/// Whether the client of this number has the mark.
pub fn is_marked(script: &Script, at: usize, mark: Mark) -> bool
    requires { at < length script.now.clients }
    ensures { result ≡ is_marked mark script.now (caller_at at) }
{
    has_mark(&script.clients()[at], mark)
}

/// How many clients have no mark.
pub fn count_plain(script: &Script) -> usize
    ensures { result ≡ count_by (λ k. has_mark Plain k.mark) script.now.clients }
{
    script
        .clients()
        .iter()
        .filter(|client| has_mark(client, Mark::Plain))
        .count()
}
