//! What is known of how all objects of a domain stand behind a journal.
ghost use Rattle.std.specs.Prelude.{◌≡◌, ◌<◌, List, length, option_map};
ghost use Rattle.sml_domain.specs.Domain as domains;
ghost use Rattle.smi_journal_entries.specs.Sets.{members_after};
ghost use Rattle.smi_journal_entries.specs.Words as says;
ghost use Rattle.smi_journal_entries.specs.declared.entry.Entry as entries;
ghost use Rattle.smi_journal_entries.specs.declared.journal.Format as formats;
ghost use Rattle.smi_meaning.specs.Params.{ParamsAfter};

use show_names::tell_object;
use smi_audit::Past;
use smi_core::Core;
use smi_journal::Letter;
use sml_domain::{Domain, ObjId, SetId, StateId, Value};
use sml_writer::Out;
use std::alloc::AllocError;

/// What knows how all objects of a domain stand behind a journal: a core behind its steps, and a judge behind the
/// entries that it took. Each look-up takes a constant time.
pub trait Standing {
    ghost of_domain: { Self → domains.Domain };

    ghost in_format: { Self → formats.Format };

    ghost behind: { Self → List entries.Entry };

    /// The domain.
    fn domain(&self) -> &Domain
        ensures { result.now ≡ of_domain self.now };

    /// The state of an object.
    fn state(&self, o: ObjId) -> StateId
        requires { o < length (of_domain self.now).objects }
        ensures { result ≡ says.state_of (of_domain self.now) o (behind self.now) };

    /// The parameters of an object, in the order of its class's list.
    fn params(&self, o: ObjId) -> &[Value]
        requires { o < length (of_domain self.now).objects }
        ensures { ParamsAfter (in_format self.now) (of_domain self.now) o (behind self.now) result.now };

    /// The letter whose action is open at an object, or None if no action is open there.
    fn opened(&self, o: ObjId) -> Option<&Letter>
        requires { o < length (of_domain self.now).objects }
        ensures { option_map (λ l. l.now) result ≡ says.open_at o (behind self.now) };

    /// The members of a set, in order.
    fn members(&self, set: SetId) -> &[ObjId]
        ensures { result.now ≡ members_after (of_domain self.now) set (behind self.now) };

    /// Writes ` waits` and the objects for which the open action of an object waits, each once, in the order of its
    /// names; nothing where it waits for none. The cost is that of the objects that it names, by that of the objects.
    /// The error is out of memory.
    fn tell_awaited(&self, out: &mut Out<'_, Vec<u8>>, o: ObjId) -> Result<(), AllocError>
        requires { o < length (of_domain self.now).objects };
}

// Writes ` waits` and objects, if there are any.
fn tell_waits(out: &mut Out<'_, Vec<u8>>, domain: &Domain, objects: &[ObjId]) {
    if !objects.is_empty() {
        out.say(b" waits");
    }
    for object in objects {
        tell_object(out, domain, *object);
    }
}

impl Standing for Core {
    ghost use Rattle.smi_journal_entries.specs.declared.journal.Format.TheVariants.{Two};

    ghost of_domain = { λ c. c.setup.domain };

    ghost in_format = { λ _. Two };

    ghost behind = { λ c. c.world.journal };

    fn domain(&self) -> &Domain {
        Core::domain(self)
    }

    fn state(&self, o: ObjId) -> StateId {
        Core::state(self, o)
    }

    fn params(&self, o: ObjId) -> &[Value] {
        Core::params(self, o)
    }

    fn opened(&self, o: ObjId) -> Option<&Letter> {
        Core::opened(self, o)
    }

    fn members(&self, set: SetId) -> &[ObjId] {
        Core::members(self, set)
    }

    fn tell_awaited(&self, out: &mut Out<'_, Vec<u8>>, o: ObjId) -> Result<(), AllocError> {
        let objects = self.waits_for(o)?;
        tell_waits(out, Core::domain(self), &objects);
        Ok(())
    }
}

impl Standing for Past {
    ghost of_domain = { λ p. p.books.domain };

    ghost in_format = { λ p. p.format };

    ghost behind = { λ p. p.books.journal };

    fn domain(&self) -> &Domain {
        self.books().domain()
    }

    fn state(&self, o: ObjId) -> StateId {
        self.books().state(o)
    }

    fn params(&self, o: ObjId) -> &[Value] {
        Past::params(self, o)
    }

    fn opened(&self, o: ObjId) -> Option<&Letter> {
        self.books().opened(o)
    }

    fn members(&self, set: SetId) -> &[ObjId] {
        self.books().sets().of(self.books().domain(), set)
    }

    fn tell_awaited(&self, out: &mut Out<'_, Vec<u8>>, o: ObjId) -> Result<(), AllocError> {
        explain_runs::tell_awaited(out, self, b" waits", o);
        Ok(())
    }
}
