//! The core that some lines of words come to.

ghost use Rattle.std.specs.Prelude.{◌≡◌, IfOk, IfErr, OnOk, Err, true, false, All};
ghost use Rattle.core_state.specs.Setup.{setup_of};
ghost use Rattle.smt_model.specs.Setup.{is_accepted};
ghost use Rattle.scripts.specs.Lines.{words_in};
ghost use Rattle.scripts.specs.Script.{IsInRange};
ghost use Rattle.scripts.specs.Session.{HaveCounted, HasGuessed};
ghost use Rattle.smt_core.specs.Shown.{Shown};
ghost use Rattle.prompts.specs.Kept.{IsAskedAll, AreInRange, kept_in};

use elf_image::Image;
use numbers::sizes::MOST_ACTORS;
use scripts::{ScriptWord, run_script};
use smt_core::{Config, Core, CoreRefused, Predict};
use std::alloc::{AllocError, Global};

/// What a core is made of, and who predicts for it. Whoever has it makes the core again, and asks it
/// again what was asked.
#[derive(Drop)]
pub struct Simulation<'a, P> {
    pub image: &'a Image,
    pub config: &'a Config,
    /// The most events of its history.
    pub limit: u32,
    pub predict: P,
    pub alloc: Global,
}

/// A core, how many of each actor's asks it has answered idle, and its answers to all that it was asked.
#[derive(Drop)]
pub(crate) struct Asked {
    pub core: Core,
    pub idle: [u64; MOST_ACTORS],
    pub text: Vec<u8>,
}

impl<P: Predict + Copy> Simulation<'_, P> {
    /// The core that is asked the words of all these lines, and nothing else.
    pub(crate) fn ask_all(&self, lines: &[Vec<ScriptWord>]) -> Result<Asked, CoreRefused>
        requires { AreInRange (kept_in lines.now) }
        ensures asked { IfOk result (λ asked. IsAskedAll P.predicts self.now.predict
            (setup_of self.now.image.now self.now.config.now) self.now.limit (kept_in lines.now)
            asked.core asked.idle asked.text.items) }
        ensures accepted { OnOk result
            (is_accepted (setup_of self.now.image.now self.now.config.now) self.now.limit ≡ true) }
        ensures refused { result ≡ Err CoreRefused.Config
            → is_accepted (setup_of self.now.image.now self.now.config.now) self.now.limit ≡ false }
    {
        let core = Core::new(self.image, self.config.copied(), self.limit, self.alloc)?;
        match words_of(lines, self.alloc) {
            Ok(words) => self.ask(core, words.as_slice()),
            Err(AllocError) => Err(CoreRefused::Memory),
        }
    }

    /// Asks a core these words.
    fn ask(&self, core: Core, words: &[ScriptWord]) -> Result<Asked, CoreRefused>
        requires { All (λ word. IsInRange word.action) words.now }
        ensures setup { IfOk result (λ asked. asked.core.setup ≡ core.setup) }
        ensures limit { IfOk result (λ asked. asked.core.limit ≡ core.limit) }
        ensures shown { IfOk result (λ asked. Shown asked.core) }
        ensures asked { IfOk result (λ asked. HaveCounted words.now core asked.core
            asked.idle asked.text.items) }
        ensures guessed { IfOk result (λ asked. (after : P) × HasGuessed P.predicts core.past
            asked.core.past self.now.predict after) }
        ensures refused { IfErr result (λ why. why ≡ CoreRefused.Memory) }
    {
        let mut predict = self.predict;
        let mut text = Vec::new(self.alloc);
        // What holds the answers fails for want of memory alone.
        match run_script(
            core,
            words,
            self.image,
            self.config,
            &mut predict,
            &mut text,
        ) {
            Ok(finished) => {
                let idle = finished.idle;
                Ok(Asked {
                    core: finished.core,
                    idle,
                    text,
                })
            }
            Err(_) => Err(CoreRefused::Memory),
        }
    }
}

/// The words of all lines, one after another.
fn words_of(lines: &[Vec<ScriptWord>], alloc: Global) -> Result<Vec<ScriptWord>, AllocError>
    ensures { IfOk result (λ words. words.items ≡ words_in (kept_in lines.now)) }
{
    let mut words = Vec::new(alloc);
    for line in lines {
        words.extend_from_slice(line.as_slice())?;
    }
    Ok(words)
}
