// A call made on its memory.
use crate::{boxing, filing, searching};
use calls::answer::Answer;
use calls::call::Call;
use calls::header::Header;
use calls::memory::Memory;
use system::refusal::Refused;

fn made(header: &Header, memory: &mut Memory<'_>) -> Result<Answer, Refused> {
    match header.call {
        Call::Read => filing::read(memory),
        Call::Write => filing::write(header, memory),
        Call::Start => searching::start(header, memory),
        Call::Check => searching::check(header, memory),
        Call::Visit => searching::visit(header, memory),
        Call::Run => searching::run(header, memory),
        Call::Half => boxing::half(header),
        Call::Middle => boxing::middle(header),
        Call::Record => filing::record(header, memory),
    }
}

pub fn answer(header: &Header, memory: &mut Memory<'_>) -> Answer {
    made(header, memory).unwrap_or_else(Answer::Refused)
}
