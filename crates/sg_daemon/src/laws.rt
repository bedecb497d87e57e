// What holds of all words. The function here does nothing: its contract is a law.
ghost use Rattle.sg_daemon.specs.Offline.{FirstWordsTell};

/// Words whose first one is neither `run` nor `drill` are among those that `offline` takes.
pub fn first_words_tell()
    ensures { FirstWordsTell }
{}
