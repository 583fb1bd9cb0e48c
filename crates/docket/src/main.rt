// Runs document 01's docket and prints it: for each round its kind and the words of all parties, then the outputs.
#![tactic(auto)]

use field::Word;
use joint::Ending;
use std::io;

const PARTIES: u32 = 2;

fn main(rt: HostRuntime) -> io::Result<()> {
    let mut to = rt.stdout();
    let circuit: [Word; 16] = [1, 0, 0, 0, 1, 1, 0, 0, 6, 0, 1, 0, 7, 2, 0, 0];
    let preps: [Word; 26] = [
        3, 1, 10, 2, 4, 30, 0, 1, 11, 3, 8, 5, 44, 4, 1, 4, 0, 6, 40, 10, 2, 10, 1, 20, 7, 40,
    ];
    let inputs: [Word; 2] = [5, 6];
    let coefficients: [Word; 3] = [1, 2, 5];
    let nonces: [u8; 128] = [0; 128];
    let mut scratch: [Word; 76] = [0; 76];
    let mut transcript: [Word; 78] = [0; 78];
    let mut outputs: [Word; 1] = [0; 1];
    let answer = joint::joint_run(
        PARTIES as usize,
        &circuit,
        &preps,
        &inputs,
        &mut scratch,
        &coefficients,
        &nonces,
        &mut transcript,
        &mut outputs,
    );
    if let Ok(Ending::Done(rounds)) = answer {
        printing::print_rounds(&mut to, PARTIES, &circuit, rounds, &transcript)?;
        printing::print_list(&mut to, b"out", &outputs)?;
    }
    Ok(())
}
