ghost use Rattle.std.specs.Prelude.{List};
ghost use Rattle.af_plane.specs.declared.session_log.SessionLog.{SessionLog};
ghost use Rattle.af_server.specs.Connections.{ConnectionRows};
ghost use Rattle.af_server.specs.declared.stop_wait.StopWait.{StopWait};

/// What a machine has done for one thread, in order. Only the machine notes anything, and nothing that is generic over a machine can lose a log.
pub trait MachineLog {
    /// The connections that it has handed to a handler.
    ghost connections: { Self → List ConnectionRows };

    /// The waits to be told to stop, each with what the session of the thread had done by then.
    ghost waits: { Self → List (StopWait × SessionLog) };
}
