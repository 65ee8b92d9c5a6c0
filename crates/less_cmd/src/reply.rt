// The reply to a request.
ghost use Rattle.std.specs.Prelude.{◌≡◌, ℕ, List, IfOk};
ghost use Rattle.php_frames.specs.Progress.{closed};
ghost use Rattle.less_cmd.specs.Reply.{reply_text};

use php_frames::PageRun;
use reply_text::{ScriptEnd, ScriptRun};
use std::alloc::{AllocError, Global};

/// The bytes of the reply to a request that was run to its end.
pub fn reply_bytes(alloc: Global, run: &PageRun) -> Result<Vec<u8>, AllocError>
    ensures { IfOk result (λ bytes. (path : List ℕ) → bytes.items ≡ reply_text (closed path run.now)) }
{
    if run.is_spent() {
        let spent = ScriptRun {
            status: 200,
            headers: &[],
            output: run.output(),
            end: ScriptEnd::Budget,
        };
        let bytes = reply_text::reply_bytes(alloc, &spent, None, false)?;
        return Ok(bytes);
    }
    let done = ScriptRun {
        status: 200,
        headers: &[],
        output: run.output(),
        end: ScriptEnd::Done,
    };
    let bytes = reply_text::reply_bytes(alloc, &done, None, false)?;
    Ok(bytes)
}
