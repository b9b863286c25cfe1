ghost use Rattle.std.specs.Prelude.{◌≡◌, [], length};
ghost use Rattle.af_http.specs.Connections.{Connects};
ghost use Rattle.af_server.specs.Connections.{AnswersEach, CameAt};
ghost use Rattle.af_server.specs.Reports.{EndsBy};

use crate::handler::Handler;
use crate::host::Listener;
use crate::machine::Machine;
use af_http::{Ended, Room, Service, Sink, Source};
use std::alloc::Global;
use std::io::ErrorKind;
use std::marker::Model;
use std::time::Duration;

/// Serves connections by one service, each in the room of the one before it. Contracts see the service.
#[derive(Drop)]
pub struct Serving<S: Service> {
    room: Room,
    service: S,
}

impl<S: Service> Model for Serving<S> {
    ghost Value = { S };

    ghost view = { λ serving. serving.service };
}

impl<S: Service> Serving<S> {
    /// By this service. It takes no memory.
    pub fn by(alloc: Global, service: S) -> Serving<S>
        ensures { result ≡ service }
    {
        Serving {
            room: Room::new(alloc),
            service,
        }
    }

    /// Serves the connections that come in, one after another, and notes each. It ends after so many if there is a number, and if the machine
    /// gives no more. It returns how many there were, and the error for which it ended, if it was one.
    pub fn serve_each<R: Machine>(
        &mut self,
        rt: &R,
        listener: &Listener,
        time: Duration,
        connections: Option<u32>,
        log: &mut R::Log,
    ) -> (u64, Option<ErrorKind>)
        requires { R.Log.connections log.old ≡ [] }
        ensures serves { AnswersEach S.answers (R.Log.connections log.new) self.old self.new }
        ensures came { CameAt listener.now (R.Log.connections log.new) }
        ensures counted { result.0 ≡ length (R.Log.connections log.new) }
        ensures waits { R.Log.waits log.new ≡ R.Log.waits log.old }
        ensures ended { EndsBy R.behaviour.ends connections result.0 result.1 }
    {
        let most = match connections {
            Some(most) => u64::from(most),
            None => u64::MAX,
        };
        for count in 0..most {
            match rt.handle_next(listener, time, log, self) {
                Ok(()) => {}
                Err(error) => return (count, Some(error)),
            }
        }
        (most, None)
    }

    /// The service itself.
    pub fn into_service(self) -> S
        ensures { result ≡ self }
    {
        let Serving { service, .. } = self;
        service
    }
}

impl<S: Service> Handler for Serving<S> {
    ghost handles = { λ old before after start finish ended new. Connects S.answers before after start finish old new ended };

    fn handle<R: Source, W: Sink>(&mut self, reader: &mut R, writer: &mut W) -> Ended {
        self.room.serve(reader, writer, &mut self.service)
    }
}
