// The calls on a waiting store: start, check, visit and run. The state changes where the library answers another.
use calls::answer::Answer;
use calls::header::Header;
use calls::memory::Memory;
use runs::visits::Answer as Visited;
use system::refusal::Refused;

pub fn start(header: &Header, memory: &mut Memory<'_>) -> Result<Answer, Refused> {
    let coefficients = &mut *memory.coefficients;
    memory.state = waiting::start::start(header.head, coefficients, memory.store)?;
    Ok(Answer::Started)
}

pub fn check(header: &Header, memory: &Memory<'_>) -> Result<Answer, Refused> {
    waiting::state::check(header.head, memory.state, memory.store, memory.records())?;
    Ok(Answer::Sound)
}

pub fn visit(header: &Header, memory: &mut Memory<'_>) -> Result<Answer, Refused> {
    match runs::visits::visit(memory.store, memory.list, header.head, memory.state)? {
        Visited::Saw(seen) => {
            memory.state = seen.state;
            Ok(Answer::Saw(seen.visit))
        }
        Visited::Stopped(word) => Ok(Answer::Stopped(word)),
    }
}

pub fn run(header: &Header, memory: &mut Memory<'_>) -> Result<Answer, Refused> {
    let stop = runs::runs::run(
        memory.store,
        memory.list,
        header.head,
        memory.state,
        header.budget,
    )?;
    memory.state = stop.state;
    Ok(Answer::Stopped(stop.word))
}
