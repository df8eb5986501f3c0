//! The text of a window as it is made, piece by piece.

ghost use Rattle.std.specs.Prelude.{◌≡◌, length, IfOk};
ghost use Rattle.std.proofs.Props.{props};
ghost use Rattle.cmb_design_model.specs.Exact.{nets_of};
ghost use Rattle.cmb_shares.specs.Inner.Flows.{AreGathered, AreMade};
ghost use Rattle.cmb_shares.specs.Inner.Gatherings.{IsBlank};
ghost use Rattle.cmb_shares.specs.Inner.Runs.{IsRun, IsTurn, subject_in};
ghost use Rattle.cmb_shares.specs.Inner.Texts.{IsBegun, IsOf, IsText};

use crate::desk::Job;
use crate::gathered::Gathered;
use crate::message::Message;
use crate::share_run::ShareRun;
use cmb_design_model::Design;
use cmb_dump::{Dump, Shown};
use cmb_words::Changed;
use std::alloc::{AllocError, Global};
use std::marker::{Model, PhantomData};
use std::mem::{replace, swap};

/// A dump, and a buffer for the changes of a window by rising number.
#[derive(Drop)]
pub struct Tools<'a, T: ShareRun> {
    dump: Dump<'a>,
    all: Vec<Changed>,
    run: PhantomData<T>,
    ghost subject: { dump.subject ≡ subject_in T.run },
}

/// No text is being made.
#[derive(Drop)]
pub struct Free<'a, T: ShareRun> {
    tools: Tools<'a, T>,
    gathered: Gathered,
    ghost blank: { IsBlank (nets_of T.run.design) gathered } by { Prim.hlevel props },
}

/// What some of the shares sent of a window is put together.
#[derive(Drop)]
pub struct Gathering<'a, T: ShareRun> {
    tools: Tools<'a, T>,
    gathered: Gathered,
    job: Job<T>,
    place: usize,
    ghost made: { AreGathered T.run place job.from job.upto gathered } by { Prim.hlevel props },
}

/// What all of them sent is taken by rising number, some nets at a time.
#[derive(Drop)]
pub struct Taking<'a, T: ShareRun> {
    tools: Tools<'a, T>,
    gathered: Gathered,
    from: u32,
    upto: u32,
    /// The number of marks at which the next nets begin.
    number: usize,
}

impl<'a, T: ShareRun> Model for Taking<'a, T> {
    ghost use Rattle.std.specs.Prelude.{ℕ};
    ghost use Rattle.cmb_shares.specs.Inner.Texts.{IsTaking};

    ghost Value = { ℕ };

    ghost view = { λ t. t.number };

    ghost invariant = { λ t. IsTaking T.run t.from t.upto t.number t.gathered t.tools.all.items };
}

/// The dump makes text of it.
#[derive(Drop)]
pub struct Writing<'a, T: ShareRun> {
    tools: Tools<'a, T>,
    gathered: Gathered,
    from: u32,
    upto: u32,
    ghost blank: { IsBlank (nets_of T.run.design) gathered } by { Prim.hlevel props },
    ghost turn: { IsTurn T.run from upto } by { Prim.hlevel props },
    ghost begun: { IsBegun T.run from upto tools.dump } by { Prim.hlevel props },
}

/// How far the text of a window is.
#[derive(Drop)]
pub enum Stage<'a, T: ShareRun> {
    Free(Free<'a, T>),
    Gathering(Gathering<'a, T>),
    Taking(Taking<'a, T>),
    Writing(Writing<'a, T>),
}

/// The text of a window that a thread is at, if any.
#[derive(Drop)]
pub struct Draft<'a, T: ShareRun> {
    stage: Stage<'a, T>,
}

// Clauses see nothing of a draft: what it has stands in its type.
impl<'a, T: ShareRun> Model for Draft<'a, T> {
    ghost use Rattle.std.specs.Prelude.{⊤};

    ghost Value = { ⊤ };

    ghost view = { λ _. tt };
}

/// The text of a window of the run that `T` names.
#[derive(Drop)]
pub struct Text<T: ShareRun> {
    pub from: u32,
    pub upto: u32,
    pub text: Vec<u8>,
    run: PhantomData<T>,
    ghost told: { IsText T.run from upto text.items } by { Prim.hlevel props },
}

impl<'a, T: ShareRun> Tools<'a, T> {
    // Has the dump begin the text of a window, by its changes. Errors: memory was refused.
    fn begin(self, from: u32, upto: u32) -> Result<Tools<'a, T>, AllocError>
        requires turn { IsTurn T.run from upto }
        requires lawful { IsRun T.run }
        requires made { AreMade T.run (length T.run.driven) from upto self.all.items }
        ensures { IfOk result (λ tools. IsBegun T.run from upto tools.dump) }
    {
        let Tools {
            mut dump,
            mut all,
            run,
        } = self;
        dump.skip(from);
        let Ok(()) = dump.begin(&mut all, upto) else {
            drop((dump, all));
            return Err(AllocError);
        };
        Ok(Tools { dump, all, run })
    }
}

impl<'a, T: ShareRun> Free<'a, T> {
    /// What text of all nets that are shown is made with. Errors: memory was refused.
    pub(crate) fn open(
        alloc: Global,
        design: &'a Design,
        shown: Shown<'a>,
    ) -> Result<Free<'a, T>, AllocError>
        requires { IsOf T.run design.now shown }
    {
        let gathered = Gathered::new(alloc, design.netlist().len())?;
        let Ok(dump) = Dump::at(alloc, design, shown, 1) else {
            drop(gathered);
            return Err(AllocError);
        };
        let tools = Tools {
            dump,
            all: Vec::new(alloc),
            run: PhantomData,
        };
        Ok(Free { tools, gathered })
    }

    // Begins the text of a window of which one share sent, the only one: nothing is to be put together. The message is
    // spent. Errors: memory was refused.
    fn begin_alone(
        self,
        job: Job<T>,
        spent: &mut Vec<Message<T>>,
    ) -> Result<Stage<'a, T>, AllocError>
        requires { length job.parts.items ≡ 1 }
    {
        let Free {
            mut tools,
            gathered,
        } = self;
        let Job {
            from,
            upto,
            mut parts,
        } = job;
        let message = parts.swap_remove(0);
        let Message {
            envelope,
            mut changes,
            ..
        } = message;
        swap(&mut tools.all, &mut changes);
        parts.push_reserved(Message::greeting(envelope.sender, envelope.reader, changes));
        *spent = parts;
        match tools.begin(from, upto) {
            Ok(tools) => Ok(Stage::Writing(Writing {
                tools,
                gathered,
                from,
                upto,
            })),
            Err(error) => {
                drop(gathered);
                Err(error)
            }
        }
    }

    /// Begins the text of a window. What one share sent alone is spent. Errors: memory was refused.
    pub(crate) fn begin(
        self,
        job: Job<T>,
        spent: &mut Vec<Message<T>>,
    ) -> Result<Stage<'a, T>, AllocError> {
        if job.parts.len() == 1 {
            return self.begin_alone(job, spent);
        }
        let Free { tools, gathered } = self;
        Ok(Stage::Gathering(Gathering {
            tools,
            gathered,
            job,
            place: 0,
        }))
    }
}

impl<'a, T: ShareRun> Gathering<'a, T> {
    /// Adds what one more share sent. Behind the last one the messages are spent.
    pub(crate) fn go_on(self, spent: &mut Vec<Message<T>>) -> Stage<'a, T> {
        let Gathering {
            mut tools,
            mut gathered,
            job,
            place,
        } = self;
        if place < job.parts.len() {
            gathered.add(&job.parts[place].changes);
            return Stage::Gathering(Gathering {
                tools,
                gathered,
                job,
                place: place + 1,
            });
        }
        let Job { from, upto, parts } = job;
        tools.all.clear();
        *spent = parts;
        Stage::Taking(Taking {
            tools,
            gathered,
            from,
            upto,
            number: 0,
        })
    }
}

impl<'a, T: ShareRun> Taking<'a, T> {
    /// Takes the changes of some nets more. Behind the last ones the dump begins. Errors: memory was refused.
    pub(crate) fn go_on(self) -> Result<Stage<'a, T>, AllocError> {
        let Taking {
            mut tools,
            mut gathered,
            from,
            upto,
            number,
        } = self;
        let Ok(next) = gathered.tell(number, &mut tools.all) else {
            drop((tools, gathered));
            return Err(AllocError);
        };
        if next < gathered.numbers() {
            return Ok(Stage::Taking(Taking {
                tools,
                gathered,
                from,
                upto,
                number: next,
            }));
        }
        let Ok(tools) = tools.begin(from, upto) else {
            drop(gathered);
            return Err(AllocError);
        };
        gathered.clear();
        Ok(Stage::Writing(Writing {
            tools,
            gathered,
            from,
            upto,
        }))
    }
}

impl<'a, T: ShareRun> Writing<'a, T> {
    /// Makes the text of some nets more. Gives the text of the window behind the last ones. Errors: memory was refused.
    pub(crate) fn go_on(
        self,
        alloc: Global,
        room: &mut Vec<u8>,
    ) -> Result<(Stage<'a, T>, Option<Text<T>>), AllocError> {
        let Writing {
            mut tools,
            gathered,
            from,
            upto,
        } = self;
        let Ok(is_made) = tools.dump.go_on() else {
            drop((tools, gathered));
            return Err(AllocError);
        };
        if !is_made {
            let stage = Stage::Writing(Writing {
                tools,
                gathered,
                from,
                upto,
            });
            return Ok((stage, None));
        }
        tools.dump.swap_text(room);
        let text = replace(room, Vec::new(alloc));
        let stage = Stage::Free(Free { tools, gathered });
        let text = Text {
            from,
            upto,
            text,
            run: PhantomData,
        };
        Ok((stage, Some(text)))
    }
}

impl<'a, T: ShareRun> Stage<'a, T> {
    // Goes on by a piece, if a text was begun. Behind the last piece it gives the text. Errors: memory was refused.
    fn go_on(
        self,
        alloc: Global,
        spent: &mut Vec<Message<T>>,
        room: &mut Vec<u8>,
    ) -> Result<(Stage<'a, T>, Option<Text<T>>), AllocError> {
        match self {
            Stage::Free(it) => Ok((Stage::Free(it), None)),
            Stage::Gathering(it) => Ok((it.go_on(spent), None)),
            Stage::Taking(it) => Ok((it.go_on()?, None)),
            Stage::Writing(it) => it.go_on(alloc, room),
        }
    }
}

impl<'a, T: ShareRun> Draft<'a, T> {
    /// None is begun.
    pub(crate) fn new(free: Free<'a, T>) -> Draft<'a, T> {
        Draft {
            stage: Stage::Free(free),
        }
    }

    /// Whether one is begun.
    pub(crate) fn is_begun(&self) -> bool {
        match &self.stage {
            Stage::Free(_) => false,
            Stage::Gathering(_) | Stage::Taking(_) | Stage::Writing(_) => true,
        }
    }

    /// Begins the text of a window. Errors: memory was refused, or one is begun.
    pub(crate) fn begin(
        self,
        job: Job<T>,
        spent: &mut Vec<Message<T>>,
    ) -> Result<Draft<'a, T>, AllocError> {
        match self.stage {
            Stage::Free(free) => Ok(Draft {
                stage: free.begin(job, spent)?,
            }),
            Stage::Gathering(_) | Stage::Taking(_) | Stage::Writing(_) => Err(AllocError),
        }
    }

    /// Goes on by a piece, if a text was begun. Behind the last piece it gives the text. Errors: memory was refused.
    pub(crate) fn go_on(
        self,
        alloc: Global,
        spent: &mut Vec<Message<T>>,
        room: &mut Vec<u8>,
    ) -> Result<(Draft<'a, T>, Option<Text<T>>), AllocError> {
        let (stage, text) = self.stage.go_on(alloc, spent, room)?;
        Ok((Draft { stage }, text))
    }
}
