ghost use Rattle.af_pool.specs.Laws.{OccupiedIsQueuedAndRunning, OpenFillsThePool};

/// What is occupied in a pool is what queued instances hold and what running ones do.
pub fn occupied_is_queued_and_running()
    ensures { OccupiedIsQueuedAndRunning }
{}

/// Occupied and open slots together are a pool's slots, or what is occupied where that is more.
pub fn open_fills_the_pool()
    ensures { OpenFillsThePool }
{}
