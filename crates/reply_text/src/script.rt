// The reply to a request that ran a script.
ghost use Rattle.std.specs.Prelude.{◌≡◌, ◌++◌, ℕ, List, IfOk, OnOk};
ghost use Rattle.std.specs.Option.{option_map};
ghost use Rattle.reply_text.specs.Replies as spec;
ghost use Rattle.reply_text.specs.Runs.{end_of, run_of};

use crate::head::{append_back, append_front};
use crate::header::HeaderLine;
use itoa::Buffer;
use std::alloc::{AllocError, Global};

/// How the run of a script ended, as far as its reply tells it.
#[derive(Clone, Copy, Debug)]
pub enum ScriptEnd<'r> {
    /// It came to its end.
    Done,
    /// A removed file or function was to be entered.
    Removed,
    /// One tick more than the budget was wanted.
    Budget,
    /// It could not go on, at a line of a file, counted from 1.
    Fatal {
        name: &'r str,
        file: &'r str,
        line: u32,
    },
}

/// What the run of a script leaves for its reply. The status is the one that the script set, or 200.
#[derive(Clone, Copy, Debug)]
pub struct ScriptRun<'r> {
    pub status: u16,
    pub headers: &'r [HeaderLine],
    pub output: &'r [u8],
    pub end: ScriptEnd<'r>,
}

fn code_of(run: &ScriptRun<'_>) -> u16
    ensures { result ≡ spec.code_after run.now.status (end_of run.now.end) }
{
    match run.end {
        ScriptEnd::Done => run.status,
        ScriptEnd::Removed => 403,
        ScriptEnd::Budget => 503,
        ScriptEnd::Fatal { .. } => 500,
    }
}

// What stands behind the output.
#[tactic(auto, unfolding(crate::specs::Replies::removal_page))]
fn page_of(end: ScriptEnd<'_>) -> &'static [u8]
    ensures { (output : List ℕ) → spec.body_after output (end_of end.entry) ≡ output ++ result.now }
{
    match end {
        ScriptEnd::Removed => b"<p>This part of the application has been removed.</p>\n",
        _ => b"",
    }
}

// The value of a content type, or what was found before.
fn later_type<'h>(before: &'h [u8], header: &'h HeaderLine) -> &'h [u8]
    ensures { result.now ≡ spec.content_type_of before.now header.now }
{
    if header.is_named(b"content-type") {
        header.value()
    } else {
        before
    }
}

#[tactic(auto, using(std::proofs::lemmas::List::Sums::fold_more))]
fn content_type(headers: &[HeaderLine]) -> &[u8]
    ensures { result.now ≡ spec.content_type headers.now }
{
    let mut found: &[u8] = b"text/html; charset=UTF-8";
    for header in headers {
        found = later_type(found, header);
    }
    found
}

fn is_own(header: &HeaderLine) -> bool
    ensures { result ≡ spec.is_own header.now }
{
    header.is_named(b"content-type")
        || header.is_named(b"content-length")
        || header.is_named(b"connection")
        || header.is_named(b"transfer-encoding")
}

fn append_header(out: &mut Vec<u8>, header: &HeaderLine) -> Result<(), AllocError>
    ensures { OnOk result (out.new.items ≡ out.old.items ++ spec.other_line header.now) }
{
    if is_own(header) {
        return Ok(());
    }
    out.extend_from_slice(header.name())?;
    out.extend_from_slice(b": ")?;
    out.extend_from_slice(header.value())?;
    out.extend_from_slice(b"\r\n")?;
    Ok(())
}

fn append_headers(out: &mut Vec<u8>, headers: &[HeaderLine]) -> Result<(), AllocError>
    ensures { OnOk result (out.new.items ≡ out.old.items ++ spec.other_lines headers.now) }
{
    for header in headers {
        append_header(out, header)?;
    }
    Ok(())
}

#[tactic(auto, unfolding(crate::specs::Replies::cookie_line))]
fn append_cookie(out: &mut Vec<u8>, cookie: Option<&str>) -> Result<(), AllocError>
    ensures { OnOk result (out.new.items ≡ out.old.items ++ spec.cookie_line (option_map (λ id. id.now) cookie.entry)) }
{
    let Some(id) = cookie else {
        return Ok(());
    };
    out.extend_from_slice(b"Set-Cookie: PHPSESSID=")?;
    out.extend_from_slice(id.as_bytes())?;
    out.extend_from_slice(b"; path=/\r\n")?;
    Ok(())
}

fn append_fatal(out: &mut Vec<u8>, name: &str, file: &str, line: u32) -> Result<(), AllocError>
    ensures { OnOk result (out.new.items ≡ out.old.items ++ spec.fatal_line name.now file.now line) }
{
    let mut digits = Buffer::new();
    out.extend_from_slice(b"X-Less: fatal ")?;
    out.extend_from_slice(name.as_bytes())?;
    out.extend_from_slice(b" ")?;
    out.extend_from_slice(file.as_bytes())?;
    out.extend_from_slice(b":")?;
    out.extend_from_slice(digits.format(line).as_bytes())?;
    out.extend_from_slice(b"\r\n")?;
    Ok(())
}

fn append_end(out: &mut Vec<u8>, end: ScriptEnd<'_>) -> Result<(), AllocError>
    ensures { OnOk result (out.new.items ≡ out.old.items ++ spec.end_line (end_of end.entry)) }
{
    match end {
        ScriptEnd::Done => {}
        ScriptEnd::Removed => out.extend_from_slice(b"X-Less: removed\r\n")?,
        ScriptEnd::Budget => out.extend_from_slice(b"X-Less: budget\r\n")?,
        ScriptEnd::Fatal { name, file, line } => append_fatal(out, name, file, line)?,
    }
    Ok(())
}

// The headers between the content type and the length.
fn append_lines(
    out: &mut Vec<u8>,
    run: &ScriptRun<'_>,
    cookie: Option<&str>,
) -> Result<(), AllocError>
    ensures { OnOk result (out.new.items ≡ out.old.items ++ spec.script_lines (run_of run.now) (option_map (λ id. id.now) cookie.entry)) }
{
    append_headers(out, run.headers)?;
    append_cookie(out, cookie)?;
    append_end(out, run.end)?;
    Ok(())
}

#[tactic(auto, unfolding(crate::specs::Replies::script_head))]
fn append_head(
    out: &mut Vec<u8>,
    run: &ScriptRun<'_>,
    cookie: Option<&str>,
    body_length: usize,
) -> Result<(), AllocError>
    ensures { OnOk result (out.new.items ≡ out.old.items ++ spec.script_head (run_of run.now) (option_map (λ id. id.now) cookie.entry) body_length) }
{
    append_front(out, code_of(run), content_type(run.headers))?;
    append_lines(out, run, cookie)?;
    append_back(out, body_length)?;
    Ok(())
}

/// The bytes of the reply to a request that ran a script. The cookie is the text of the id of a new session; with
/// `head_only` the body is left out, and its length is still told.
pub fn reply_bytes(
    alloc: Global,
    run: &ScriptRun<'_>,
    cookie: Option<&str>,
    head_only: bool,
) -> Result<Vec<u8>, AllocError>
    ensures { IfOk result (λ bytes. bytes.items ≡ spec.reply_text (run_of run.now) (option_map (λ id. id.now) cookie.entry) head_only) }
{
    let page = page_of(run.end);
    let length = run.output.len() + page.len();
    let mut bytes = Vec::with_capacity(alloc, length.saturating_add(256))?;
    append_head(&mut bytes, run, cookie, length)?;
    if head_only {
        return Ok(bytes);
    }
    bytes.extend_from_slice(run.output)?;
    bytes.extend_from_slice(page)?;
    Ok(bytes)
}
