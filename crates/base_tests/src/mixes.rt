//! The texts of the mixes, row by row.
//!
//! The rows were computed by a program in another language, which was written from the definition.
use line_session::BytesSink;
use std::alloc::Global;
use std::test::Fail;
use trace_text::read_trace;
use ycsb_mix::{Mix, MixError, Step, mix_lines, mix_steps, write_mix};

/// A mix, its load, operations and callers, its seed and the lines of its text.
type Row<'a> = (Mix, [u32; 3], u64, &'a [&'a [u8]]);

#[test]
fn a_mix_is_the_text_of_its_seed(rt: HostRuntime) -> Result<(), Fail> {
    let rows: [Row; 7] = [
        (
            Mix::A,
            [3, 6, 2],
            7,
            &[
                b"phase\n",
                b"caller 0\n",
                b"put 0 1\n",
                b"put 4354685564936845354 3\n",
                b"caller 1\n",
                b"put 11400714819323198485 2\n",
                b"phase\n",
                b"caller 0\n",
                b"put 0 4\n",
                b"put 0 6\n",
                b"put 0 8\n",
                b"caller 1\n",
                b"get 11400714819323198485\n",
                b"put 0 7\n",
                b"put 0 9\n",
            ],
        ),
        (
            Mix::B,
            [3, 6, 2],
            7,
            &[
                b"phase\n",
                b"caller 0\n",
                b"put 0 1\n",
                b"put 4354685564936845354 3\n",
                b"caller 1\n",
                b"put 11400714819323198485 2\n",
                b"phase\n",
                b"caller 0\n",
                b"get 0\n",
                b"get 0\n",
                b"get 0\n",
                b"caller 1\n",
                b"get 11400714819323198485\n",
                b"put 0 7\n",
                b"put 0 9\n",
            ],
        ),
        (
            Mix::C,
            [1, 2, 2],
            1,
            &[
                b"phase\n",
                b"caller 0\n",
                b"put 0 1\n",
                b"phase\n",
                b"caller 0\n",
                b"get 0\n",
                b"caller 1\n",
                b"get 0\n",
            ],
        ),
        (
            Mix::C,
            [2, 0, 1],
            1,
            &[
                b"phase\n",
                b"caller 0\n",
                b"put 0 1\n",
                b"put 11400714819323198485 2\n",
                b"phase\n",
            ],
        ),
        (
            Mix::D,
            [3, 6, 2],
            2,
            &[
                b"phase\n",
                b"caller 0\n",
                b"put 0 1\n",
                b"put 4354685564936845354 3\n",
                b"caller 1\n",
                b"put 11400714819323198485 2\n",
                b"phase\n",
                b"caller 0\n",
                b"get 4354685564936845354\n",
                b"put 1663341875487337577 6\n",
                b"get 4354685564936845354\n",
                b"caller 1\n",
                b"get 11400714819323198485\n",
                b"put 13064056694810536062 7\n",
                b"get 13064056694810536062\n",
            ],
        ),
        (
            Mix::E,
            [3, 4, 1],
            3,
            &[
                b"phase\n",
                b"caller 0\n",
                b"put 0 1\n",
                b"put 11400714819323198485 2\n",
                b"put 4354685564936845354 3\n",
                b"phase\n",
                b"caller 0\n",
                b"scan 0 11\n",
                b"put 8709371129873690708 5\n",
                b"scan 0 21\n",
                b"scan 0 73\n",
            ],
        ),
        (
            Mix::F,
            [2, 4, 2],
            0,
            &[
                b"phase\n",
                b"caller 0\n",
                b"put 0 1\n",
                b"caller 1\n",
                b"put 11400714819323198485 2\n",
                b"phase\n",
                b"caller 0\n",
                b"get 0\n",
                b"get 0\n",
                b"caller 1\n",
                b"get 0\n",
                b"get 11400714819323198485\n",
                b"put 11400714819323198485 6\n",
            ],
        ),
    ];
    for (mix, numbers, seed, lines) in rows {
        let mut want = Vec::new(rt.alloc());
        for &line in lines {
            want.extend_from_slice(line)?;
        }
        let sink = written(rt.alloc(), mix, numbers, seed)?;
        assert_eq!(rt; sink.bytes(), &want[..], "{mix:?}");
    }
    Ok(())
}

/// A sink with the text of a mix.
fn written(alloc: Global, mix: Mix, numbers: [u32; 3], seed: u64) -> Result<BytesSink, MixError> {
    let [load, ops, callers] = numbers;
    let mut sink = BytesSink::new(alloc, 10_000, &[])?;
    write_mix(
        alloc,
        mix,
        load.clamp(1, 1 << 20),
        ops.min(1 << 20),
        callers.clamp(1, 64),
        seed,
        &mut sink,
    )?;
    Ok(sink)
}

#[test]
fn a_trace_is_read_as_the_lines_of_its_mix(rt: HostRuntime) -> Result<(), Fail> {
    let sink = written(rt.alloc(), Mix::F, [9, 70, 4], 3)?;
    let read = read_trace(rt.alloc(), sink.bytes(), 4).expect(&rt, "a trace");
    let made = mix_lines(rt.alloc(), Mix::F, 9, 70, 4, 3)?;
    let (mut read, mut made) = (read.cursor(), made.cursor());
    // Beyond the end of both there is nothing more.
    for at in 0..200 {
        assert_eq!(rt; read.next_line(), made.next_line(), "line {at}");
    }
    assert_eq!(rt; made.next_line(), None);
    Ok(())
}

#[test]
fn a_mix_without_operations_loads_each_key_once(rt: HostRuntime) -> Result<(), Fail> {
    let steps = mix_steps(rt.alloc(), Mix::F, 10, 0, 4, 1)?;
    let puts = steps.iter().filter(|&&step| is_put(step)).count();
    assert_eq!(rt; puts, 10);
    // Two phases and the marks of four callers stand beside the puts.
    assert_eq!(rt; steps.len(), 16);
    Ok(())
}

/// Whether a step puts a key.
fn is_put(step: Step) -> bool {
    match step {
        Step::Put { .. } => true,
        _ => false,
    }
}

#[test]
fn a_sink_that_fails_is_a_fault_of_writing(rt: HostRuntime) -> Result<(), Fail> {
    let mut sink = BytesSink::new(rt.alloc(), 1000, &[0])?;
    let wrote = write_mix(rt.alloc(), Mix::A, 1, 1, 1, 1, &mut sink);
    assert_eq!(rt; wrote, Err(MixError::WriteFault));
    Ok(())
}

#[test]
fn an_error_shows_its_cause(rt: HostRuntime) -> Result<(), Fail> {
    let texts = [
        (MixError::WriteFault, "the trace could not be written"),
        (MixError::Memory, "not enough memory for the trace"),
    ];
    for (error, text) in texts {
        let shown = format!(in rt.alloc(); "{error}")?;
        assert_eq!(rt; shown.as_str(), text);
    }
    Ok(())
}
