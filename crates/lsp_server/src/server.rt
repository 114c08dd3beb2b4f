// The server.
ghost use Rattle.std.specs.Prelude.{◌≡◌, ◌≤◌, [], ◌∷◌, true, false, IfOk, IfErr, IsOk};
ghost use Rattle.std.specs.Result.{result_err};
ghost use Rattle.lsp_desk.specs.Meaning.{IsOpening};
ghost use Rattle.lsp_frame.specs.Codec.{AreLimits, default_limits};
ghost use Rattle.lsp_session.specs.Item.{show_item, item_has_float, tick};
ghost use Rattle.lsp_session.specs.Run.{order_by};
ghost use Rattle.lsp_session.specs.State.{live, opening_by};
ghost use Rattle.lsp_session.specs.SessionView.{session_view, has_stopped, desk_of};
ghost use Rattle.lsp_server.specs.Course.{course};
ghost use Rattle.lsp_server.specs.Served.{handed_back};
ghost use Rattle.lsp_server.specs.ServedView.{show_served};
ghost use Rattle.lsp_server.specs.ServesSession.{ServesSession};

use crate::serving::serve_over;
use crate::step::{ServeError, write_step};
use crate::{Ends, Sink, Source};
use bytes::BytesMut;
use lsp_desk::{ClientSocket, Desk, Loopback};
use lsp_frame::{CodecSettings, Floats, Limits};
use lsp_rpc::{Id, NoMemory};
use lsp_session::{Handlers, Item, Life, Pick, Session};
use std::alloc::Global;

/// What a server hands back at the end of its session.
#[derive(Drop)]
pub struct Served<H, D> {
    /// The handlers, as the session left them.
    pub service: H,
    /// The desk, as the session left it.
    pub desk: D,
    /// The life that stood when `exit` was admitted; none where input ended before.
    pub exited: Option<Life>,
    /// The ids of requests without a reply, in order of admission.
    pub unanswered: Vec<Id>,
}

/// What a server hands back where it stopped before the end of its session.
#[derive(Drop)]
pub struct Stopped<D> {
    /// Why it stopped.
    pub error: ServeError,
    /// The desk, as the session left it.
    pub desk: D,
}

/// Serves a session over a source and a sink of bytes.
#[derive(Drop)]
pub struct Server<D: Desk + Drop> {
    socket: ClientSocket<D>,
    max: usize,
    wait: usize,
    settings: CodecSettings,
    empty_params: bool,
    ghost some: { 1 ≤ max },
    ghost limited: { AreLimits settings.limits },
}

impl<D: Desk + Drop> Server<D> {
    ghost use Rattle.lsp_server.specs.ServerView.{server_desk, concurrency, waiting, server_limits, server_floats, server_empty_params, set_up, IsSetUp, setting};
    ghost use Rattle.lsp_server.specs.Steps.{MayStep, MadeSteps};
    ghost use Rattle.lsp_server.specs.Leaves.{WritesFlushed};

    /// A server over the desk of a socket. At most 4 calls are polled in a round, a request of an
    /// ordinary method is refused while 1,024 calls wait, and a head has at most 8,192 bytes and a
    /// body at most 67,108,864. A body with a float is refused, and so are params of a method that
    /// takes none.
    pub fn new(socket: ClientSocket<D>) -> Server<D>
        ensures desk { server_desk result ≡ socket.desk }
        ensures concurrency { concurrency result ≡ 4 }
        ensures waiting { waiting result ≡ 1024 }
        ensures limits { server_limits result ≡ default_limits }
        ensures floats { server_floats result ≡ Floats.Refused }
        ensures empty_params { server_empty_params result ≡ false }
    {
        Server {
            socket,
            max: 4,
            wait: 1024,
            settings: CodecSettings::default(),
            empty_params: false,
        }
    }

    /// The same server, in which at most `max` calls are polled in a round.
    pub fn concurrency_level(self, max: usize) -> Server<D>
        requires { 1 ≤ max }
        ensures { IsSetUp result (record (set_up self) { concurrency = max }) }
    {
        Server {
            socket: self.socket,
            max,
            wait: self.wait,
            settings: self.settings,
            empty_params: self.empty_params,
        }
    }

    /// The same server, in which a request of an ordinary method is refused while no more calls may
    /// be polled and `wait` others wait.
    pub fn waiting_limit(self, wait: usize) -> Server<D>
        ensures { IsSetUp result (record (set_up self) { waiting = wait }) }
    {
        Server {
            socket: self.socket,
            max: self.max,
            wait,
            settings: self.settings,
            empty_params: self.empty_params,
        }
    }

    /// The same server, in which heads and bodies have at most so many bytes.
    pub fn limits(self, limits: Limits) -> Server<D>
        requires { AreLimits limits }
        ensures { IsSetUp result (record (set_up self) { limits = limits }) }
    {
        let floats = self.settings.floats;
        Server {
            socket: self.socket,
            max: self.max,
            wait: self.wait,
            settings: CodecSettings { limits, floats },
            empty_params: self.empty_params,
        }
    }

    /// The same server, by which bodies with floats are read so.
    pub fn floats(self, floats: Floats) -> Server<D>
        ensures { IsSetUp result (record (set_up self) { floats = floats }) }
    {
        let limits = self.settings.limits;
        Server {
            socket: self.socket,
            max: self.max,
            wait: self.wait,
            settings: CodecSettings { limits, floats },
            empty_params: self.empty_params,
        }
    }

    /// The same server, in which params that hold nothing, null or an empty object, are read as
    /// absent where a method takes none.
    pub fn allow_empty_params(self) -> Server<D>
        ensures { IsSetUp result (record (set_up self) { empty_params = true }) }
    {
        Server {
            socket: self.socket,
            max: self.max,
            wait: self.wait,
            settings: self.settings,
            empty_params: true,
        }
    }

    /// How the server reads bodies: within which limits, and what becomes of floats.
    pub fn codec_settings(&self) -> CodecSettings
        ensures limits { result.limits ≡ server_limits self.now }
        ensures floats { result.floats ≡ server_floats self.now }
        ensures limited { AreLimits result.limits }
    {
        self.settings
    }

    /// Whether params that hold nothing are read as absent where a method takes none.
    pub fn allows_empty_params(&self) -> bool
        ensures { result ≡ server_empty_params self.now }
    {
        self.empty_params
    }

    /// The socket, how many calls are polled in a round at most, how many calls that wait let no
    /// further request wait, and the limits. It takes no memory.
    pub fn into_parts(self) -> (ClientSocket<D>, usize, usize, Limits)
        ensures desk { result.0.desk ≡ server_desk self }
        ensures concurrency { result.1 ≡ concurrency self }
        ensures waiting { result.2 ≡ waiting self }
        ensures limits { result.3 ≡ server_limits self }
        ensures some { 1 ≤ result.1 }
    {
        (self.socket, self.max, self.wait, self.settings.limits)
    }

    /// Makes the step of one item: it is admitted, so many rounds are made, and the frames of all
    /// that was put out are written and flushed. After an error no clause lets the session go
    /// on, since what was put out may be lost.
    pub fn step<O: Sink, H: Handlers<D>, P: Pick>(
        alloc: Global,
        sink: &mut O,
        session: &mut Session<H, D>,
        item: Item,
        pick: &mut P,
        rounds: u64,
    ) -> Result<(), ServeError>
        requires rounds { 1 ≤ rounds }
        requires may { MayStep H.semantics D.meaning session.old }
        requires float_free { item_has_float (show_item item) ≡ false }

        // The step was made, and exactly the frames of what it put out were written and flushed; at
        // an error nothing was written, or what begins them. Each error has its cause, and a
        // failure is told.
        ensures steps { MadeSteps H.semantics D.meaning (order_by P.gives P.later) rounds
            session.old (P.state pick.old) (O.taken sink.old) (show_item item ∷ [])
            session.new (P.state pick.new) (O.taken sink.new) result }
        ensures sink { WritesFlushed O.taken O.flushed O.faults O.beside sink.old sink.new
            (result_err result) }
    {
        let mut room = BytesMut::new(alloc);
        write_step(alloc, &mut room, sink, session, item, pick, rounds)?;
        sink.flush()?;
        Ok(())
    }

    /// Makes the step of a tick: nothing is admitted, and so many rounds are made.
    pub fn idle<O: Sink, H: Handlers<D>, P: Pick>(
        alloc: Global,
        sink: &mut O,
        session: &mut Session<H, D>,
        pick: &mut P,
        rounds: u64,
    ) -> Result<(), ServeError>
        requires rounds { 1 ≤ rounds }
        requires may { MayStep H.semantics D.meaning session.old }
        ensures steps { MadeSteps H.semantics D.meaning (order_by P.gives P.later) rounds
            session.old (P.state pick.old) (O.taken sink.old) (tick ∷ [])
            session.new (P.state pick.new) (O.taken sink.new) result }
        ensures sink { WritesFlushed O.taken O.flushed O.faults O.beside sink.old sink.new
            (result_err result) }
    {
        Server::<D>::step(alloc, sink, session, Item::Tick, pick, rounds)
    }

    /// Serves the messages of the source to the sink, to the end of input or the first `exit`.
    ///
    /// It reads pieces of at most 4,096 bytes, at most `reads` of them. Before it reads again it
    /// makes the step of each item that is told, with `rounds` rounds, and writes and flushes all
    /// that they put out.
    pub fn serve<I: Source, O: Sink, H: Handlers<D>, P: Pick>(
        self,
        alloc: Global,
        source: &mut I,
        sink: &mut O,
        service: H,
        pick: &mut P,
        reads: u64,
        rounds: u64,
    ) -> Result<Served<H, D>, Stopped<D>>
        requires rounds { 1 ≤ rounds }
        requires opening { IsOpening D.meaning (server_desk self) }

        // What was written and is handed back is of the session over all the source's bytes; at an
        // error it begins that. Each error has its cause, and each failure is told.
        ensures { ServesSession (course H.semantics D.meaning (order_by P.gives P.later)
            (setting self service (P.state pick.old) rounds))
            (record {
              left = I.left source.old;
              left_after = I.left source.new;
              reads_failed = I.faults source.old;
              reads_failed_after = I.faults source.new;
              taken = O.taken sink.old;
              taken_after = O.taken sink.new;
              flushed = O.flushed sink.old;
              flushed_after = O.flushed sink.new;
              writes_failed = O.faults sink.old;
              writes_failed_after = O.faults sink.new;
            }) reads (P.state pick.new) result }
    {
        let desk = self.socket.into_desk();
        let mut session = open(alloc, service, desk, self.max, self.wait, self.empty_params);
        let mut ends = Ends { source, sink };
        match serve_over(
            alloc,
            &mut ends,
            &mut session,
            pick,
            reads,
            rounds,
            self.settings,
        ) {
            Ok(()) => hand_back(session),
            Err(error) => Err(stop(session, error)),
        }
    }
}

/// The session that a server serves with.
pub fn open<D: Desk + Drop, H: Handlers<D>>(
    alloc: Global,
    service: H,
    desk: D,
    max: usize,
    wait: usize,
    empty_params: bool,
) -> Session<H, D>
    requires some { 1 ≤ max }
    requires opening { IsOpening D.meaning desk }
    ensures view { session_view H.semantics D.meaning result ≡ record {
      desk = desk;
      state = opening_by service max wait empty_params;
      out = [];
    } }
    ensures running { has_stopped result ≡ false }
{
    let session = Session::new(alloc, service, desk, max).waiting_limit(wait);
    if empty_params {
        session.allow_empty_params()
    } else {
        session
    }
}

/// What is handed back at the end of a session.
pub fn hand_back<D: Desk + Drop, H: Handlers<D>>(
    session: Session<H, D>,
) -> Result<Served<H, D>, Stopped<D>>
    requires running { has_stopped session ≡ false }
    ensures handed { IfOk result (λ served. show_served served
        ≡ handed_back (session_view H.semantics D.meaning session)) }
    ensures stopped { IfErr result (λ stopped. (stopped.error ≡ ServeError.NoMemory)
        × (stopped.desk ≡ (session_view H.semantics D.meaning session).desk)) }
    // Where each request is answered, it takes no memory.
    ensures none { live (session_view H.semantics D.meaning session).state ≡ [] → IsOk result }
{
    let exited = session.exited();
    match session.unanswered() {
        Ok(unanswered) => {
            let (service, desk) = session.into_parts();
            Ok(Served {
                service,
                desk,
                exited,
                unanswered,
            })
        }
        Err(NoMemory) => Err(stop(session, ServeError::NoMemory)),
    }
}

/// What is handed back where a session stopped.
pub fn stop<D: Desk + Drop, H: Handlers<D>>(session: Session<H, D>, error: ServeError) -> Stopped<D>
    ensures error { result.error ≡ error }
    ensures desk { result.desk ≡ desk_of session }
{
    Stopped {
        error,
        desk: session.into_parts().1,
    }
}
