//! The addresses for which a text stands.

use crate::reason::Reason;
use std::alloc::{AllocError, Global};
use std::io::ErrorKind;
use std::net::{Net, SocketAddr, TcpListener, TcpStream, ToSocketAddrs};
use std::sync::{Arc, Mutex, Wait};
use std::thread;
use std::thread::{Parker, Threads};
use std::time::Duration;

/// What stands before an address in a locator of Zenoh.
const PROTOCOL: &str = "tcp/";

/// How often the resolver's answer is looked for, and how long each look waits: 3 seconds, as a dial waits for a connection.
const MOST_LOOKS: u32 = 30;

const LOOK_MS: u64 = 100;

/// How long the thread that resolves rests, unless a question wakes it.
const REST_MS: u64 = 1_000;

type Found = Result<Vec<SocketAddr>, Reason>;

/// Asks the system's resolver on a thread of its own, so that who asks waits for 3 seconds at most.
#[derive(Drop)]
pub(crate) struct Resolver {
    question: Mutex<Option<Question>>,
    bell: Parker,
}

/// A text whose addresses are wanted, and where they are put.
#[derive(Drop)]
struct Question {
    text: String,
    answer: Arc<Answer>,
}

impl Resolver {
    /// Nothing is asked.
    pub(crate) fn new(alloc: Global) -> Result<Arc<Resolver>, AllocError> {
        let idle = Resolver {
            question: Mutex::new(None),
            bell: Parker::new(),
        };
        Ok(Arc::new(alloc, idle)?)
    }

    /// Starts the thread that resolves. It ends with the process. Where there can be none, no name has an address.
    pub(crate) fn start<
        R: Net<Listener = TcpListener, Stream = TcpStream>
            + Threads
            + Wait
            + Copy
            + Send
            + Drop
            + 'static,
    >(rt: R, alloc: Global, resolver: &Arc<Resolver>) {
        if let Ok(theirs) = Arc::try_clone(resolver) {
            let _ = thread::spawn(&rt, move || theirs.answer_on(&rt, alloc));
        }
    }

    fn answer_on<R: Net<Listener = TcpListener, Stream = TcpStream> + Wait>(
        &self,
        rt: &R,
        alloc: Global,
    ) {
        for _ in rt.forever() {
            match self.next(rt) {
                Some(question) => {
                    let found = looked_up(rt, alloc, question.text.as_str());
                    question.answer.give(rt, found);
                }
                None => self.bell.park_timeout(rt, Duration::from_millis(REST_MS)),
            }
        }
    }

    fn next<R: Wait>(&self, rt: &R) -> Option<Question> {
        self.question.lock(rt).take()
    }

    /// The addresses for which a text stands: `HOST:PORT` or `tcp/HOST:PORT`, HOST an address, of version 6 in brackets, or a name. A name that the system
    /// doesn't resolve within 3 seconds has none.
    pub(crate) fn addresses<R: Wait>(&self, rt: &R, alloc: Global, text: &str) -> Found {
        let plain = text.strip_prefix(PROTOCOL).unwrap_or(text);
        match plain.parse::<SocketAddr>() {
            Ok(address) => one(alloc, address),
            Err(_) => self.by_name(rt, alloc, plain),
        }
    }

    fn by_name<R: Wait>(&self, rt: &R, alloc: Global, text: &str) -> Found {
        match asked(alloc, text) {
            Ok((question, answer)) => {
                *self.question.lock(rt) = Some(question);
                self.bell.unpark();
                answer.wait(rt)
            }
            Err(_) => Err(Reason::NoMemory),
        }
    }
}

fn one(alloc: Global, address: SocketAddr) -> Found {
    let mut found = Vec::new(alloc);
    match found.push(address) {
        Ok(()) => Ok(found),
        Err(_) => Err(Reason::NoMemory),
    }
}

fn asked(alloc: Global, text: &str) -> Result<(Question, Arc<Answer>), AllocError> {
    let text = String::from_str(alloc, text)?;
    let ours = Arc::new(alloc, Answer::new())?;
    let answer = Arc::try_clone(&ours)?;
    Ok((Question { text, answer }, ours))
}

fn looked_up<R: Net<Listener = TcpListener, Stream = TcpStream>>(
    rt: &R,
    alloc: Global,
    text: &str,
) -> Found {
    match text.to_socket_addrs(rt) {
        Ok(all) => match all.collect(alloc) {
            Ok(found) => Ok(found),
            Err(_) => Err(Reason::NoMemory),
        },
        // the resolver's own errors have no kind
        Err(e) if e.kind() == ErrorKind::Uncategorized => Err(Reason::NoSuchHost),
        Err(e) => Err(Reason::from(e)),
    }
}

/// What was found, once it is. It is shared by the thread that resolves and the one that waits.
#[derive(Drop)]
struct Answer {
    found: Mutex<Option<Found>>,
    bell: Parker,
}

impl Answer {
    fn new() -> Answer {
        Answer {
            found: Mutex::new(None),
            bell: Parker::new(),
        }
    }

    fn give<R: Wait>(&self, rt: &R, found: Found) {
        *self.found.lock(rt) = Some(found);
        self.bell.unpark();
    }

    fn wait<R: Wait>(&self, rt: &R) -> Found {
        for _ in 0..MOST_LOOKS {
            if let Some(found) = self.found.lock(rt).take() {
                return found;
            }
            self.bell.park_timeout(rt, Duration::from_millis(LOOK_MS));
        }
        Err(Reason::TimedOut)
    }
}
