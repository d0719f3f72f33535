ghost use Rattle.std.specs.Prelude.{◌≡◌, IfOk, false, true, map};
ghost use Rattle.type_trees.specs.Ids.{id_text};
ghost use Rattle.type_trees.specs.View.{tree};
ghost use Rattle.object_formats.specs.Objects as o;
ghost use Rattle.type_resolve.specs.Objects.{has_objects, identifier};
ghost use Rattle.tool_runs.specs.output.Runs.{Comes};
ghost use Rattle.tool_types.specs.Coming.{AllComeBack};
ghost use Rattle.tool_types.specs.Declaring.{AllGood, declared_view};
ghost use Rattle.tool_words.specs.View.{reference_view};
ghost use Rattle.xt_calls.specs.Calls as spec;
ghost use Rattle.xt_calls.specs.Opened.{front};

use crate::answers::{Answer, DONE, refuse_words, said};
use crate::types::Types;
use std::alloc::Global;
use tool_runs::output::{Halt, Stop};
use tool_types::Declared;
use tool_types::names::{id_named, top_named};
use tool_words::{Reference, named_by};
use type_object::Pool;
use type_resolve::objects_of;
use type_trees::{HashId, Named, XType};
use xt_lists::{OutOfMemory, Text};

fn id_line(alloc: Global, id: &HashId) -> Result<Answer, OutOfMemory>
    ensures { IfOk result (λ answer. answer ≡ spec.said 0 (id_text id.now)) }
{
    let text = format!(in alloc; "{id}")?;
    said(alloc, DONE, text.as_bytes())
}

fn id_answer(alloc: Global, id: &HashId) -> Result<Answer, Stop>
    ensures { Comes (spec.id_answer id.now) (λ answer. answer) result }
{
    match id_line(alloc, id) {
        Ok(answer) => Ok(answer),
        Err(_) => Err(Stop::Halted(Halt::OutOfMemory)),
    }
}

// By objects that are made for it alone.
fn minimal_of(alloc: Global, ty: XType) -> Result<HashId, OutOfMemory>
    requires { has_objects (tree ty) ≡ true }
    ensures { IfOk result (λ id. identifier false (tree ty) ≡ o.hash id) }
{
    let named = Named {
        name: Text::new(alloc),
        ty,
    };
    let mut pool = Pool::new(alloc);
    match objects_of(alloc, &named, &mut pool) {
        Ok(ids) => Ok(ids.minimal),
        Err(_) => Err(OutOfMemory),
    }
}

#[tactic(auto, using(crate::proofs::Tops::top_has_objects))]
fn minimal_named(
    alloc: Global,
    reference: &Reference<'_>,
    records: &[Declared],
    pool: &Pool,
) -> Result<HashId, Stop>
    requires good { AllGood records.now }
    requires back { AllComeBack pool.now (map declared_view records.now) }
    ensures { Comes (spec.minimal_named (reference_view reference.now) (map declared_view records.now, pool.now)) (λ id. id) result }
{
    let found = top_named(alloc, reference, records, pool)?;
    match minimal_of(alloc, found.ty) {
        Ok(id) => Ok(id),
        Err(_) => Err(Stop::Halted(Halt::OutOfMemory)),
    }
}

impl Types {
    /// The identifier of the structure or union that a word names: the complete one, or that of the object that the word names.
    pub fn id_of(&self, alloc: Global, word: &[u8]) -> Result<Answer, Stop>
        ensures { Comes (spec.identified word.now (front self.now)) (λ answer. answer) result }
    {
        let Some(reference) = named_by(word) else {
            return Err(refuse_words(alloc));
        };
        let id = id_named(alloc, &reference, self.declared.as_slice(), &self.pool)?;
        id_answer(alloc, &id)
    }

    /// The minimal identifier of the structure or union that a word names.
    pub fn minimal_id_of(&self, alloc: Global, word: &[u8]) -> Result<Answer, Stop>
        ensures { Comes (spec.minimally_identified word.now (front self.now)) (λ answer. answer) result }
    {
        let Some(reference) = named_by(word) else {
            return Err(refuse_words(alloc));
        };
        let id = minimal_named(alloc, &reference, self.declared.as_slice(), &self.pool)?;
        id_answer(alloc, &id)
    }
}
