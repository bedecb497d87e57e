// What holds of every reading and every line. The functions here do nothing: their contracts are laws.
ghost use Rattle.std.specs.Prelude.{◌≡◌, ℕ, ℤ, List};
ghost use Rattle.sg_msg.specs.Message.{Content, IsMessage as IsContent};
ghost use Rattle.sg_r3164.specs.declared.opts.ReadOpts.{ReadOpts};
ghost use Rattle.sg_template.specs.declared.env.Env.{Env};
ghost use Rattle.sg_r5424.specs.Is5424.{Is5424};
ghost use Rattle.sg_r5424.specs.Write.{line_text, HasYear};
ghost use Rattle.sg_r5424.specs.Again.{data_pairs, KeepsData, SaysAgain};
ghost use Rattle.sg_r5424.specs.OwnForm.{ReadsOwnForm};

/// A record is related to at most one message.
pub fn records_say_one_message()
    ensures { (item : List ℕ) (at : ℤ) (peer : List ℕ) (opts : ReadOpts) (a b : Content)
        → Is5424 item at peer opts a → Is5424 item at peer opts b → a ≡ b }
{}

/// What `write` appends is a record, for every moment, peer and options, where the year of its stamp is
/// 0001 to 9998. It says the message's PRI again; HOST, PROGRAM, PID and MSGID, each where it has the
/// form of its field; MESSAGE, where no byte order mark stands at its front and no LF or NUL at its end;
/// and the structured data, where each name is of the grammar and each element without parameters is
/// alone with its ID. HOST is read so where the options keep it.
pub fn lines_are_records()
    ensures { (message : Content) (env : Env) → IsContent message → HasYear message env
        → (at : ℤ) (peer : List ℕ) (opts : ReadOpts)
        → (said : Content) × (Is5424 (line_text message env) at peer opts said
        × SaysAgain opts message said) }
{}

/// A record whose structured data is of RFC 5424's own form has a place in a line for all of it, so the
/// line of its message says the same structured data, but for the order of elements, and the later of
/// two values of one name.
///
/// Of that form is each ID without `@` that has no dot and whose parameters' names have no `@`; each ID
/// `name@number`, where every dot behind the first `@` stands before a digit, and whose parameters'
/// names begin with no digit; and no ID stands both with parameters and without (RFC 5424, sections
/// 6.3.2, 6.3.3 and 7.2.2, where each ID stands once).
pub fn data_is_said_again()
    ensures keeps { (item : List ℕ) (at : ℤ) (peer : List ℕ) (opts : ReadOpts) (message : Content)
        → ReadsOwnForm item at peer opts message → KeepsData message.pairs }
    ensures again { (item : List ℕ) (at : ℤ) (peer : List ℕ) (opts : ReadOpts) (message : Content)
        (env : Env)
        → ReadsOwnForm item at peer opts message → IsContent message → HasYear message env
        → (later : ℤ) (next : List ℕ) (options : ReadOpts)
        → (said : Content) × (Is5424 (line_text message env) later next options said
        × (data_pairs said.pairs ≡ data_pairs message.pairs)) }
{}
