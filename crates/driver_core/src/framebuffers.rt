//! Framebuffers (OES_framebuffer_object).
ghost use Rattle.std.specs.Prelude.{◌≡◌, ◌<◌, false, Some, IfSome};
ghost use Rattle.egl_calls.specs.Ranges.{is_client_wait};
ghost use Rattle.egl_model.specs.Framebuffers.{attached, called_point, given_attachment, target_framebuffer};
ghost use Rattle.egl_model.specs.Sweep.{sweep};
ghost use Rattle.driver_core.specs.Costs.{IsCheap};
ghost use Rattle.driver_facts.specs.Groups.{IsAttachable};

use crate::machine::Driver;
use driver_facts::called_point;
use egl_calls::Call;
use framebuffer_objects::{Attached, Point};
use ref_store::Steps;
use share_group::NameKind;
use std::sync::ledger::Ledger;

impl Driver {
    /// A framebuffer has something attached at a point, or nothing.
    fn attach_at<L: Ledger>(
        &mut self,
        framebuffer: u64,
        point: Point,
        given: Option<Attached>,
        steps: &mut Steps<L>,
    )
        requires { IfSome given (IsAttachable self.old.state.objects) }
        ensures state { self.new ≡ record self.old { state = sweep (attached point given (Some framebuffer) self.old.state) } }
        ensures steps { IsCheap self.old.state self.new.state steps.old steps.new }
    {
        self.tables.objects.attach(framebuffer, point, given, steps);
        self.tables.objects.left();
    }

    /// Attaches what has the name that a call gives, or detaches what is there. It takes no memory.
    pub(crate) fn attach<L: Ledger>(
        &mut self,
        context: u64,
        kind: NameKind,
        call: &Call,
        steps: &mut Steps<L>,
    )
        requires { is_client_wait call.now.kind ≡ false }
        ensures state { self.new ≡ record self.old { state = sweep (attached (called_point call.now) (given_attachment kind self.old.state context call.now) (target_framebuffer self.old.state context) self.old.state) } }
        ensures steps { IsCheap self.old.state self.new.state steps.old steps.new }
    {
        let given = self.tables.given_attachment(context, kind, call);
        match self.tables.target_framebuffer(context) {
            Some(framebuffer) => self.attach_at(framebuffer, called_point(call), given, steps),
            None => self.settled(),
        }
    }
}
