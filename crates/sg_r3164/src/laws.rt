// What holds of every reading. The function here does nothing: its contract is a law.
ghost use Rattle.std.specs.Prelude.{◌≡◌, ℕ, ℤ, List};
ghost use Rattle.sg_msg.specs.Message.{Content};
ghost use Rattle.sg_r3164.specs.declared.opts.ReadOpts.{ReadOpts};
ghost use Rattle.sg_r3164.specs.Read3164.{Read3164};

/// An item is read as one message.
pub fn readings_are_one()
    ensures { (item : List ℕ) (at : ℤ) (peer : List ℕ) (opts : ReadOpts) (a b : Content)
        → Read3164 item at peer opts a → Read3164 item at peer opts b → a ≡ b }
{}
