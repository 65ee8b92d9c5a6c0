// The replies that are the same bytes each time.
ghost use Rattle.std.specs.Prelude.{◌≡◌, ◌++◌, length};
ghost use Rattle.reply_text.specs.Fixed.{fixed_head, fixed_body, fixed_text, keeps_body};

/// The ends of a request whose reply is fixed.
#[derive(Clone, Copy, Debug, PartialEq, Eq)]
pub enum FixedEnd {
    /// The request has not the form of the profile.
    BadRequest,
    /// A POST tells no length.
    NoLength,
    /// The body is longer than 1 MiB.
    TooLarge,
    /// Another method than GET, HEAD and POST, or a transfer coding.
    NotImplemented,
    /// No file has the path.
    NotFound,
    /// No slot is free for a session.
    NoSlot,
    /// The lock of the tables is exhausted.
    TablesSpent,
    /// The tables could not be stored.
    Store,
    /// The log line could not be written.
    Log,
    /// No id could be drawn.
    Ids,
    /// The clock could not be read.
    Clock,
    /// There was no memory.
    Memory,
}

/// How a request ended: with a fixed reply, with a static file, or with the end of a script's run.
#[derive(Debug, Drop)]
pub enum VisitEnd<E> {
    Fixed(FixedEnd),
    Static,
    Script(E),
}

fn whole(end: FixedEnd) -> &'static [u8]
    ensures { result.now ≡ fixed_head end ++ fixed_body end }
{
    match end {
        FixedEnd::BadRequest =>
            b"HTTP/1.1 400 Bad Request\r\nContent-Type: text/plain; charset=UTF-8\r\nX-Less: request\r\nContent-Length: 16\r\nConnection: close\r\n\r\n400 Bad Request\n",
        FixedEnd::NoLength =>
            b"HTTP/1.1 411 Length Required\r\nContent-Type: text/plain; charset=UTF-8\r\nX-Less: request\r\nContent-Length: 20\r\nConnection: close\r\n\r\n411 Length Required\n",
        FixedEnd::TooLarge =>
            b"HTTP/1.1 413 Payload Too Large\r\nContent-Type: text/plain; charset=UTF-8\r\nX-Less: request\r\nContent-Length: 22\r\nConnection: close\r\n\r\n413 Payload Too Large\n",
        FixedEnd::NotImplemented =>
            b"HTTP/1.1 501 Not Implemented\r\nContent-Type: text/plain; charset=UTF-8\r\nX-Less: request\r\nContent-Length: 20\r\nConnection: close\r\n\r\n501 Not Implemented\n",
        FixedEnd::NotFound =>
            b"HTTP/1.1 404 Not Found\r\nContent-Type: text/plain; charset=UTF-8\r\nX-Less: request\r\nContent-Length: 14\r\nConnection: close\r\n\r\n404 Not Found\n",
        FixedEnd::NoSlot =>
            b"HTTP/1.1 503 Service Unavailable\r\nContent-Type: text/plain; charset=UTF-8\r\nX-Less: sessions\r\nContent-Length: 24\r\nConnection: close\r\n\r\n503 Service Unavailable\n",
        FixedEnd::TablesSpent =>
            b"HTTP/1.1 503 Service Unavailable\r\nContent-Type: text/plain; charset=UTF-8\r\nX-Less: spent\r\nContent-Length: 24\r\nConnection: close\r\n\r\n503 Service Unavailable\n",
        FixedEnd::Store =>
            b"HTTP/1.1 500 Internal Server Error\r\nContent-Type: text/plain; charset=UTF-8\r\nX-Less: store\r\nContent-Length: 26\r\nConnection: close\r\n\r\n500 Internal Server Error\n",
        FixedEnd::Log =>
            b"HTTP/1.1 500 Internal Server Error\r\nContent-Type: text/plain; charset=UTF-8\r\nX-Less: log\r\nContent-Length: 26\r\nConnection: close\r\n\r\n500 Internal Server Error\n",
        FixedEnd::Ids =>
            b"HTTP/1.1 500 Internal Server Error\r\nContent-Type: text/plain; charset=UTF-8\r\nX-Less: ids\r\nContent-Length: 26\r\nConnection: close\r\n\r\n500 Internal Server Error\n",
        FixedEnd::Clock =>
            b"HTTP/1.1 500 Internal Server Error\r\nContent-Type: text/plain; charset=UTF-8\r\nX-Less: clock\r\nContent-Length: 26\r\nConnection: close\r\n\r\n500 Internal Server Error\n",
        FixedEnd::Memory =>
            b"HTTP/1.1 507 Insufficient Storage\r\nContent-Type: text/plain; charset=UTF-8\r\nX-Less: memory\r\nContent-Length: 25\r\nConnection: close\r\n\r\n507 Insufficient Storage\n",
    }
}

// How many bytes of the whole reply are its head.
fn head_len(end: FixedEnd) -> usize
    ensures { result ≡ length (fixed_head end) }
{
    match end {
        FixedEnd::BadRequest => 125,
        FixedEnd::NoLength => 129,
        FixedEnd::TooLarge => 131,
        FixedEnd::NotImplemented => 129,
        FixedEnd::NotFound => 123,
        FixedEnd::NoSlot => 134,
        FixedEnd::TablesSpent => 131,
        FixedEnd::Store => 133,
        FixedEnd::Log => 131,
        FixedEnd::Ids => 131,
        FixedEnd::Clock => 133,
        FixedEnd::Memory => 133,
    }
}

fn keeps_body(end: FixedEnd) -> bool
    ensures { result ≡ keeps_body end }
{
    match end {
        FixedEnd::BadRequest
        | FixedEnd::NoLength
        | FixedEnd::TooLarge
        | FixedEnd::NotImplemented
        | FixedEnd::Memory => true,
        _ => false,
    }
}

/// The bytes of a fixed reply. With `head_only` the body is left out where the method was known, and its length is still
/// told: the replies to a request that was refused, and that of want of memory, have their body for every method.
pub fn fixed_reply(end: FixedEnd, head_only: bool) -> &'static [u8]
    ensures { result.now ≡ fixed_text end head_only }
{
    if head_only && !keeps_body(end) {
        return whole(end).split_at(head_len(end)).0;
    }
    whole(end)
}
