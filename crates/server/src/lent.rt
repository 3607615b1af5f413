// A server that is lent serves as itself.
use crate::Server;
use field::Element;
use refusal::Member;

impl<S: Server> Server for &S {
    type Over = S::Over;

    ghost table = { λ lent. S.table lent.now };

    fn count(&self) -> usize {
        (**self).count()
    }

    fn value(&self, m: Member) -> Option<Element> {
        (**self).value(m)
    }
}
