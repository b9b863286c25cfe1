ghost use Rattle.std.specs.Prelude.{◌≡◌, ◌<◌, length, IfOk, IfErr, Err, true};
ghost use Rattle.std.specs.Option.{option_copied};
ghost use Rattle.af_policy.specs.Reads.{MemoryLast, me_of, read_of, reading_wants};
ghost use Rattle.af_word.specs.Calls.{Looked};
ghost use Rattle.af_board.specs.Marks.{IsLast, policy_of};

use crate::{Board, NotFound, Told};
use af_policy::{Me, MeFault, PolicyRead, PolicyReply, Presented, ReadFault};
use af_word::Pass;
use std::alloc::Global;

impl Board {
    /// The token's owner with roles and permissions, under the last version, which the pass has then seen. It does not wait.
    /// Atomic step: one look.
    pub fn me(
        &self,
        alloc: Global,
        pass: &mut Pass,
        token: Option<&Presented<'_>>,
    ) -> Result<Told<Result<Me<'_>, MeFault>>, NotFound>
        requires { pass.old.word ≡ self.now.word }
        ensures looked { Looked pass.old pass.new }
        ensures mark { IfOk result (λ told. IsLast self.now pass.new told.mark) }
        ensures answer { IfOk result (λ told. MemoryLast MeFault.OutOfMemory (me_of (policy_of self.now told.mark) (option_copied token.entry)) told.answer) }
        ensures not_found { IfErr result (λ _. 1 < length pass.new.places) }
    {
        let mark = self.current(pass)?;
        let answer = self.policy(&mark).me(alloc, token);
        Ok(Told { mark, answer })
    }

    /// What the token's owner reads of roles or users, under the last version, which the pass has then seen. It does not wait.
    /// Atomic step: one look.
    pub fn read(
        &self,
        alloc: Global,
        pass: &mut Pass,
        token: Option<&Presented<'_>>,
        read: &PolicyRead,
    ) -> Result<Told<Result<PolicyReply<'_>, ReadFault>>, NotFound>
        requires { pass.old.word ≡ self.now.word }
        ensures looked { Looked pass.old pass.new }
        ensures mark { IfOk result (λ told. IsLast self.now pass.new told.mark) }
        ensures answer { IfOk result (λ told. MemoryLast ReadFault.OutOfMemory (read_of (policy_of self.now told.mark) (option_copied token.entry) read.now) told.answer) }
        ensures memory { IfOk result (λ told. told.answer ≡ Err ReadFault.OutOfMemory → reading_wants read.now ≡ true) }
        ensures not_found { IfErr result (λ _. 1 < length pass.new.places) }
    {
        let mark = self.current(pass)?;
        let answer = self.policy(&mark).read(alloc, token, read);
        Ok(Told { mark, answer })
    }
}
